//! What command lines of `bus` meet, and what `bus journal` says of a journal that `bus run` wrote:
//! the functions do nothing.

ghost use Rattle.std.specs.Prelude.{◌≡◌, ◌≤◌, ℕ, List, Some, [], ◌∷◌, codes, length};
ghost use Rattle.clap.specs.Words.{one_of, subcommand_of};
ghost use Rattle.bus_register.specs.declared.limits.TheConstants.{MOST_SENDERS};
ghost use Rattle.bus_script.specs.declared.answers.Outcome.TheVariants.{Done};
ghost use Rattle.bus_journal.specs.declared.ends.JournalEnd.TheVariants as end;
ghost use Rattle.bus_logtext.specs.Journals.{IsJournalAnswer, journal_text};
ghost use Rattle.bus_commands.specs.CommandLine.{bus_command, IsGiven, IsLeftOut, MeetsWith};
ghost use Rattle.bus_commands.specs.RunLog.{IsRunJournal, run_heading};

use bus_journal::laws::journals_grow;
use bus_logtext::laws::written_journals_are_told;

/// Words that name each command, as an example: what is met, and what its options are given.
pub fn commands_are_met()
    ensures ratify { subcommand_of bus_command (codes "bus" ∷ codes "ratify" ∷ [])
        ≡ Some (codes "ratify", []) }
    ensures replay { subcommand_of bus_command (codes "bus" ∷ codes "replay" ∷ [])
        ≡ Some (codes "replay", []) }
    ensures trace { MeetsWith (codes "trace") (codes "bus" ∷ codes "trace" ∷ [])
        (λ rows. IsLeftOut (codes "svg") rows × IsLeftOut (codes "html") rows
        × IsLeftOut (codes "play") rows) }
    ensures picture { MeetsWith (codes "trace")
        (codes "bus" ∷ codes "trace" ∷ codes "--svg" ∷ []) (IsGiven (codes "svg")) }
    ensures webpage { MeetsWith (codes "trace")
        (codes "bus" ∷ codes "trace" ∷ codes "--html" ∷ [])
        (λ rows. IsLeftOut (codes "svg") rows × IsGiven (codes "html") rows) }
    ensures play { MeetsWith (codes "trace")
        (codes "bus" ∷ codes "trace" ∷ codes "--play" ∷ [])
        (λ rows. IsLeftOut (codes "svg") rows × IsLeftOut (codes "html") rows
        × IsGiven (codes "play") rows) }
    ensures run { MeetsWith (codes "run")
        (codes "bus" ∷ codes "run" ∷ codes "--seed" ∷ codes "11" ∷ [])
        (λ rows. IsLeftOut (codes "log") rows × IsLeftOut (codes "journal") rows
        × (one_of (codes "senders") rows ≡ Some (codes "3"))
        × (one_of (codes "seed") rows ≡ Some (codes "11"))) }
    ensures run_journal { MeetsWith (codes "run")
        (codes "bus" ∷ codes "run" ∷ codes "--journal" ∷ [])
        (λ rows. IsLeftOut (codes "log") rows × IsGiven (codes "journal") rows) }
    ensures log { MeetsWith (codes "log")
        (codes "bus" ∷ codes "log" ∷ codes "--senders=5" ∷ [])
        (λ rows. (one_of (codes "senders") rows ≡ Some (codes "5"))
        × (one_of (codes "batch") rows ≡ Some (codes "16"))) }
    ensures log_batch { MeetsWith (codes "log")
        (codes "bus" ∷ codes "log" ∷ codes "--batch" ∷ codes "64" ∷ [])
        (λ rows. (one_of (codes "senders") rows ≡ Some (codes "3"))
        × (one_of (codes "batch") rows ≡ Some (codes "64"))) }
    ensures journal { MeetsWith (codes "journal") (codes "bus" ∷ codes "journal" ∷ [])
        (IsLeftOut (codes "repair")) }
    ensures repair { MeetsWith (codes "journal")
        (codes "bus" ∷ codes "journal" ∷ codes "--repair" ∷ []) (IsGiven (codes "repair")) }
{}

/// The journal of a run is told as whole, with the lines of all frames of the run's log.
pub fn run_journals_are_told()
    ensures { (senders receivers messages : ℕ) (text : List ℕ) → 1 ≤ senders
        → senders ≤ MOST_SENDERS → (j : IsRunJournal senders receivers messages text)
        → IsJournalAnswer text Done
        (journal_text (run_heading senders) j.frames end.Whole (length text)) }
{
    journals_grow();
    written_journals_are_told();
}
