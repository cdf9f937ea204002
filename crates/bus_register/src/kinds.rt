//! What a step is for.

ghost use Rattle.std.specs.Prelude.{◌≡◌};
ghost use Rattle.bus_register.specs.Names.{kind_name};

/// The kinds of step of the whole protocol. Each is taken by one seat, of a sender or of a
/// receiver, and touches one word. `docs/PROTOCOL.md` has them as a table.
#[derive(Clone, Copy, Debug, PartialEq, Eq)]
pub enum Kind {
    /// A sender loads the stage: it has begun no tenure and has something to send.
    LoadStage,
    /// A sender stores 1 in its announcement, in the row of the tenure that it has begun.
    Announce,
    /// The first phase of a ratifier: a sender writes what it brings. Of two collects that is its
    /// proposal, 1 more than its bit; of three words it sets the word of its bit.
    WriteFirst,
    /// After `WriteFirst`: a sender reads what was written. Of two collects it loads the proposals
    /// in rising order; of three words it loads the proposal.
    ReadFirst,
    /// The second phase of a ratifier, after all `ReadFirst`. Of two collects a sender stores its
    /// verdict; of three words it stores a proposal where it found none, 1 more than its bit.
    WriteSecond,
    /// The last steps of a ratifier. Of two collects a sender loads the verdicts in rising order;
    /// of three words it loads the word of the bit that it does not prefer.
    ReadSecond,
    /// The first step of a conciliator: a sender sets the mark of its bit.
    SetMark,
    /// After `SetMark`: a sender loads the mark of the other bit.
    ReadOtherMark,
    /// A sender adds one vote to the coin's counter: it saw the other mark, and the coin has no
    /// answer.
    Vote,
    /// After `Vote`: a sender loads the coin's counter once.
    ReadVotes,
    /// After all rounds without a commit: one compare_exchange on the fallback word.
    Fallback,
    /// After a bit, not the last, that does not fit the candidate: a sender loads an announcement.
    ReadAnnouncement,
    /// All bits are decided and spell this sender: it stores the odd stage and takes the page.
    TakePage,
    /// The holder of the page stores the next word of its frame, at or past the length.
    StoreLogWord,
    /// The holder of the page stores the length, once all words of its frame are stored.
    StoreLength,
    /// The holder of the page stores the next even stage and gives the page back.
    GivePageBack,
    /// A receiver loads the length: its place is the length that it knows.
    LoadLength,
    /// A receiver loads the log word at its place, which is below the length that it knows.
    LoadLogWord,
    /// Where rows are used again: a sender has seen the stage of a tenure that it may enter, and
    /// stores its presence, 1 more than the tenure.
    Enter,
    /// After `Enter`: a sender loads the stage. Where that is the tenure's still, it stands in the
    /// tenure, and its election begins.
    LoadStageAgain,
    /// A sender stores 0 in its presence: after `LoadStageAgain` it saw another tenure's stage, or
    /// it lost the election, or it has just taken the page.
    Withdraw,
    /// The holder of the page loads the presences of all senders in rising order: the row of the
    /// next tenure was used before, and its frame stands in the log or none was begun.
    ReadPresence,
    /// After all `ReadPresence`: the holder stores 0 in the words of the row of the next tenure, in
    /// rising order.
    ClearRow,
    /// The holder of the page, whose frame does not fit the log by the page's floor, loads the
    /// passed places of all receivers in rising order.
    ReadPassed,
    /// A receiver that has heard a whole frame stores its place in its passed place; one that
    /// leaves for good stores 2^64 - 1.
    StorePassed,
}

impl Kind {
    /// The name of the kind, as it stands in the program.
    pub fn name(self) -> &'static str
        ensures { result.now ≡ kind_name self }
    {
        match self {
            Kind::LoadStage => "LoadStage",
            Kind::Announce => "Announce",
            Kind::WriteFirst => "WriteFirst",
            Kind::ReadFirst => "ReadFirst",
            Kind::WriteSecond => "WriteSecond",
            Kind::ReadSecond => "ReadSecond",
            Kind::SetMark => "SetMark",
            Kind::ReadOtherMark => "ReadOtherMark",
            Kind::Vote => "Vote",
            Kind::ReadVotes => "ReadVotes",
            Kind::Fallback => "Fallback",
            Kind::ReadAnnouncement => "ReadAnnouncement",
            Kind::TakePage => "TakePage",
            Kind::StoreLogWord => "StoreLogWord",
            Kind::StoreLength => "StoreLength",
            Kind::GivePageBack => "GivePageBack",
            Kind::LoadLength => "LoadLength",
            Kind::LoadLogWord => "LoadLogWord",
            Kind::Enter => "Enter",
            Kind::LoadStageAgain => "LoadStageAgain",
            Kind::Withdraw => "Withdraw",
            Kind::ReadPresence => "ReadPresence",
            Kind::ClearRow => "ClearRow",
            Kind::ReadPassed => "ReadPassed",
            Kind::StorePassed => "StorePassed",
        }
    }
}
