//! One list written over another.

ghost use Rattle.std.specs.Prelude.{◌≡◌};
ghost use Rattle.bus_embed.specs.Answers.{over};

/// Writes these over the first places, as many as there is room for.
#[tactic(auto, using(crate::proofs::OverLaws::over_all, crate::proofs::OverLaws::over_full))]
pub(crate) fn write_over<T: Copy>(new: &[T], old: &mut [T])
    ensures { old.new ≡ over new.now old.old }
{
    for place in 0..new.len() {
        if place == old.len() {
            break;
        }
        old[place] = new[place];
    }
}
