//! Checks of given verdicts against given inputs, by looking at every process and every pair.

ghost use Rattle.std.specs.Prelude.{◌≡◌, ◌↔◌, true, false, IsTrue, All};
ghost use Rattle.bus_adoptcommit.specs.Agreement.{WeaklyLegal, Legal};
ghost use Rattle.bus_adoptcommit.specs.Checks.{HasInput, CommitsTo, ConvergesOn, AgreesWith};
ghost use Rattle.bus_adoptcommit.specs.Schedule.{table_of};

use super::verdicts::Verdict;

/// The output's value, if there is one, is an input.
fn has_input(inputs: &[Option<bool>], output: Option<Verdict>) -> bool
    ensures { IsTrue result ↔ HasInput inputs.now output }
{
    match output {
        Some(verdict) => inputs.contains(&Some(verdict.value())),
        None => true,
    }
}

/// Each output's value is an input.
fn is_valid(inputs: &[Option<bool>], outputs: &[Option<Verdict>]) -> bool
    ensures { IsTrue result ↔ All (HasInput inputs.now) outputs.now }
{
    outputs.iter().all(|output| has_input(inputs, *output))
}

/// The output, if there is one, is a commit of this value.
fn commits_to(value: bool, output: Option<Verdict>) -> bool
    ensures { IsTrue result ↔ CommitsTo value output }
{
    match output {
        Some(verdict) => verdict == Verdict::Commit(value),
        None => true,
    }
}

/// If every input is this value, every output is a commit of it.
fn converges_on(inputs: &[Option<bool>], outputs: &[Option<Verdict>], value: bool) -> bool
    ensures { IsTrue result ↔ ConvergesOn inputs.now outputs.now value }
{
    inputs.contains(&Some(!value)) || outputs.iter().all(|output| commits_to(value, *output))
}

/// If all inputs are one value, every output is a commit of it.
fn is_convergent(inputs: &[Option<bool>], outputs: &[Option<Verdict>]) -> bool
    ensures { IsTrue result
        ↔ (ConvergesOn inputs.now outputs.now false × ConvergesOn inputs.now outputs.now true) }
{
    converges_on(inputs, outputs, false) && converges_on(inputs, outputs, true)
}

/// If the first is a commit, the second has its value.
fn agrees(first: Option<Verdict>, second: Option<Verdict>) -> bool
    ensures { IsTrue result ↔ AgreesWith first second }
{
    match (first, second) {
        (Some(Verdict::Commit(value)), Some(verdict)) => verdict.value() == value,
        _ => true,
    }
}

/// Every output has the value of each commit.
fn is_coherent(outputs: &[Option<Verdict>]) -> bool
    ensures { IsTrue result ↔ All (λ first. All (AgreesWith first) outputs.now) outputs.now }
{
    outputs.iter().all(|first| outputs.iter().all(|second| agrees(*first, *second)))
}

/// The outputs, by process, are valid and convergent for the inputs that count, by process.
pub fn is_weakly_legal(inputs: &[Option<bool>], outputs: &[Option<Verdict>]) -> bool
    ensures { IsTrue result ↔ WeaklyLegal (table_of inputs.now) (table_of outputs.now) }
{
    is_valid(inputs, outputs) && is_convergent(inputs, outputs)
}

/// The outputs, by process, are valid, convergent and coherent for the inputs that count, by
/// process.
pub fn is_legal(inputs: &[Option<bool>], outputs: &[Option<Verdict>]) -> bool
    ensures { IsTrue result ↔ Legal (table_of inputs.now) (table_of outputs.now) }
{
    is_weakly_legal(inputs, outputs) && is_coherent(outputs)
}
