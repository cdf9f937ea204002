//! What holds of all traces: the functions do nothing, and their contracts are the laws.

ghost use Rattle.std.specs.Prelude.{◌≡◌, ℕ, Bool, List};
ghost use Rattle.bus_picture.specs.AllLines.{HasAllLines};
ghost use Rattle.bus_script.specs.declared.answers.Outcome.{Outcome};
ghost use Rattle.bus_machine.specs.Machine.{Machine, Forks};
ghost use Rattle.bus_machine.specs.Playing.{Answers, IsServed, layout_passed};
ghost use Rattle.bus_tenure.specs.Elections.{Elector, election_of};
ghost use Rattle.bus_world.specs.World.{Event};
ghost use Rattle.bus_world.specs.declared.events.Answer.{Answer};
ghost use Rattle.bus_replay.specs.Lines.{shape_in, reuse_in, passers_in};
ghost use Rattle.bus_replay.specs.declared.lines.FirstLine.{FirstLine};
ghost use Rattle.bus_trace.specs.Naming.{AreNamed};
ghost use Rattle.bus_trace.specs.Showing.{Shows, ShowsFork};
ghost use Rattle.bus_trace.specs.Traces.{IsTrace};
ghost use Rattle.bus_trace.specs.Words.{TraceSizes, sizes_of};

use bus_adoptcommit::Ratifier;

/// All lines of a trace that show events or forks are read as rows: each line that has columns,
/// behind the names of these. And each row is drawn in the picture (`pictures_have_their_rows`).
pub fn traces_are_drawn_whole<Q: Ratifier>()
    ensures { let X = election_of Q.Ratifier in
        (input : List ℕ) (outcome : Outcome) (trace : List ℕ)
        → IsTrace X Q.protocol input outcome trace → HasAllLines trace }
{}

/// What the line of an event shows is what the event adds to the trails. Of a sender that is its
/// action with the answer of that, or the step of its pin or of its reclamation, with what that
/// found, and the tenure that it has begun. Of a receiver it is the one answer that it is given,
/// behind the load that is due of it, or the store of its place. A stop adds nothing, nor does a
/// receiver that leaves for good: its line has the store that it makes, if it makes one. Of each
/// step the line has what stood in its word before the event, and what stands there after it; no
/// other word has changed. So has the line of a fork, whose step is on the passed place of the new
/// number, if it has one.
pub fn rows_show_what_happens<Q: Ratifier>()
    ensures events { let X = election_of Q.Ratifier in
        (sizes : TraceSizes) (old : Machine (Elector Q)) (event : Event) (given : Answer)
        → (new : Machine (Elector Q)) → Answers X Q.protocol old event given new
        → Shows sizes X old event given new }
    ensures forks { (sizes : TraceSizes) (old : Machine (Elector Q)) (maker number : ℕ)
        → (did : Bool) (new : Machine (Elector Q)) → Forks old maker number did new
        → ShowsFork sizes old maker number did new }
{}

/// Each word of a bus that a first line asks for has the name of what it is: the length, the stage,
/// a sender's presence, a word of the row that a tenure uses, a receiver's passed place, and a word
/// of the log.
pub fn words_have_their_names<Q: Ratifier>()
    ensures { let P = Q.protocol in
        (first : FirstLine) → IsServed (shape_in first) (reuse_in first)
        → AreNamed (sizes_of P (shape_in first) (reuse_in first) (passers_in first))
        (layout_passed P (shape_in first) (reuse_in first) (passers_in first)) (reuse_in first) }
{}
