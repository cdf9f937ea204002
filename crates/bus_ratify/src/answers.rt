//! What a script of `ratify` is answered with.

ghost use Rattle.std.specs.Prelude.{ℕ, ◌<◌, ◌≤◌, All, IfOk, length, string_bytes};
ghost use Rattle.bus_ratify.specs.Answers.{IsAnswer, IsPlayed};

use crate::limits::MOST_INPUTS;
use crate::refusals::ReadingFault;
use crate::scripts::{Script, read_script};
use crate::text::{refusal_text, verdict_text};
use bus_adoptcommit::objects::verdicts;
use bus_adoptcommit::{TwoCollect, Verdict};
use bus_register::NoMemory;
use bus_script::{Answer, Outcome};
use std::alloc::Global;

/// The verdicts after the steps of a script, of two collects.
fn play(alloc: Global, script: &Script) -> Result<Vec<Option<Verdict>>, NoMemory>
    requires few { length script.now.inputs.items ≤ MOST_INPUTS }
    requires known { All (λ p. p < length script.now.inputs.items) script.now.schedule.items }
    ensures { IfOk result (λ verdicts. IsPlayed (record {
      inputs = script.now.inputs.items;
      schedule = script.now.schedule.items;
    }) verdicts.items) }
{
    verdicts::<TwoCollect>(alloc, &script.inputs, &script.schedule)
}

/// What is written for an input: verdicts, or the first refusal.
pub fn answer_to(alloc: Global, input: &[u8]) -> Result<Answer, NoMemory>
    ensures { IfOk result
        (λ answer. IsAnswer input.now answer.outcome (string_bytes answer.text)) }
{
    match read_script(alloc, input) {
        Ok(script) => {
            let verdicts = play(alloc, &script)?;
            Ok(Answer {
                outcome: Outcome::Done,
                text: verdict_text(alloc, &verdicts)?,
            })
        }
        Err(ReadingFault::Refused(refusal)) => Ok(Answer {
            outcome: Outcome::Refused,
            text: refusal_text(alloc, refusal)?,
        }),
        Err(ReadingFault::NoMemory) => Err(NoMemory),
    }
}
