//! The lines of a script, spelled out, and that an input has one answer.

ghost use Rattle.std.specs.Prelude.{◌≡◌, ℕ, ◌↔◌, Bool, List, Some, Ok};
ghost use Rattle.bus_script.specs.Grammar.{script_lines};
ghost use Rattle.bus_script.specs.declared.answers.Outcome.{Outcome};
ghost use Rattle.bus_ratify.specs.Answers.{IsAnswer};
ghost use Rattle.bus_ratify.specs.Scripts.{RatifyScript, inputs_of, steps_of, ratify_script};
ghost use Rattle.bus_ratify.specs.Lines.{IsInputsLine, IsStepsLine, IsScript};

use bus_adoptcommit::TwoCollect;
use bus_adoptcommit::laws::plays_are_one;

/// A line gives inputs just where it is spelled so, and steps likewise.
pub fn lines_are_spelled()
    ensures inputs { (line : List ℕ) (inputs : List Bool) → (inputs_of line ≡ Some inputs)
        ↔ IsInputsLine line inputs }
    ensures steps { (line numbers : List ℕ) → (steps_of line ≡ Some numbers)
        ↔ IsStepsLine line numbers }
{}

/// A script is played just where its lines are spelled so and each number has a process.
pub fn scripts_are_spelled()
    ensures { (bytes : List ℕ) (script : RatifyScript) → (ratify_script bytes ≡ Ok script)
        ↔ IsScript (script_lines bytes) script }
{}

/// An input has one answer.
pub fn ratify_answers_are_one()
    ensures { (input : List ℕ) (outcome other : Outcome) (text another : List ℕ)
        → IsAnswer input outcome text → IsAnswer input other another → (outcome ≡ other)
        × (text ≡ another) }
{
    plays_are_one::<TwoCollect>();
}
