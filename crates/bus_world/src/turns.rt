//! One turn of one receiver.

ghost use Rattle.std.specs.Prelude.{◌≡◌, ◌<◌, false, length, slice_index, IfSome};
ghost use Rattle.bus_register.specs.Words.{register};
ghost use Rattle.bus_deliverylog.specs.Receiving.{receiving_op};
ghost use Rattle.bus_world.specs.Turning.{words_after};
ghost use Rattle.bus_world.specs.World.{RecvDoes};

use bus_deliverylog::{Reader, RecvTurn};
use bus_register::Cells;

/// One turn of a receiver that has not left: at most one step, a load or a store of its place in
/// its passed place.
pub fn turn_receiver(cells: &mut Cells, reader: &mut Reader) -> RecvTurn
    requires stays { reader.old.gone ≡ false }
    requires within { IfSome (receiving_op reader.old) (λ o. register o < length cells.old) }
    ensures words { cells.new ≡ words_after cells.old (receiving_op reader.old) }
    ensures step { RecvDoes (slice_index cells.old) reader.old result reader.new }
{
    let Some(op) = reader.next() else {
        return RecvTurn::End;
    };
    let got = cells.apply(op);
    reader.feed(got)
}
