//! Families of kinds: what the shape of a mark says.

ghost use Rattle.std.specs.Prelude.{◌≡◌};
ghost use Rattle.bus_picture.specs.Families.{family_of, mark_name};

/// What a line of a trace shows, by which its mark is shaped.
#[derive(Clone, Copy, Debug, PartialEq, Eq)]
pub enum Family {
    /// A step that loads a word.
    Look,
    /// A step that stores a word.
    Store,
    /// A step that adds to a word.
    Add,
    /// A compare_exchange of a word.
    Exchange,
    /// A step that stores the stage, and takes the page or gives it back.
    Page,
    /// A call that takes no step: a put, a close, a leave, a stop, or a receiver that leaves or
    /// forks.
    Call,
    /// A turn that took no step.
    Nothing,
}

/// The family of what stands in the column of kinds.
pub fn family_of(kind: &str) -> Option<Family>
    ensures { result ≡ family_of kind.now }
{
    match kind {
        "LoadStage"
        | "ReadFirst"
        | "ReadSecond"
        | "ReadOtherMark"
        | "ReadVotes"
        | "ReadAnnouncement"
        | "LoadLength"
        | "LoadLogWord"
        | "LoadStageAgain"
        | "ReadPresence"
        | "ReadPassed" => { Some(Family::Look) }
        "Announce"
        | "WriteFirst"
        | "WriteSecond"
        | "SetMark"
        | "StoreLogWord"
        | "StoreLength"
        | "Enter"
        | "Withdraw"
        | "ClearRow"
        | "StorePassed" => Some(Family::Store),
        "Vote" => Some(Family::Add),
        "Fallback" | "Fork" => Some(Family::Exchange),
        "TakePage" | "GivePageBack" => Some(Family::Page),
        "put" | "close" | "leave" | "stop" | "gone" | "fork" => Some(Family::Call),
        "-" => Some(Family::Nothing),
        _ => None,
    }
}

impl Family {
    /// The name of the shape of its mark.
    pub fn mark(self) -> &'static str
        ensures { result.now ≡ mark_name self }
    {
        match self {
            Family::Look => "look",
            Family::Store => "store",
            Family::Add => "add",
            Family::Exchange => "exchange",
            Family::Page => "page",
            Family::Call => "call",
            Family::Nothing => "nothing",
        }
    }
}
