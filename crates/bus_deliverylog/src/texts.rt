//! Items and the answers of a receiver as text, in the words of `replay`.

ghost use Rattle.std.specs.Prelude.{Some};
ghost use Rattle.std.specs.Fmt.{DisplaysOnOk};
ghost use Rattle.bus_deliverylog.specs.Text.{hex_text, item_text, recv_text};

use crate::receiving::RecvTurn;
use bus_batch::Item;
use std::fmt;

/// Writes two digits for each byte, and `-` for none.
fn write_hex<W: fmt::Write>(f: &mut fmt::Formatter<W>, bytes: &[u8]) -> fmt::Result
    ensures { DisplaysOnOk W.write_str_gives f.old result (Some (hex_text bytes.now)) f.new }
{
    if bytes.is_empty() {
        return f.write_str("-");
    }
    for byte in bytes {
        write!(f, "{byte:02x}")?;
    }
    Ok(())
}

/// Bytes to be written as two hexadecimal digits each, in lower case, and `-` for none.
#[derive(Clone, Copy)]
pub struct HexText<'a>(pub &'a [u8]);

impl fmt::Display for HexText<'_> {
    ghost output = { λ text. Some (hex_text text.0.now) };

    fn fmt<W: fmt::Write>(&self, f: &mut fmt::Formatter<W>) -> fmt::Result {
        write_hex(f, self.0)
    }
}

/// An item to be written as its sender, its number and its message, as `0 3 6869`.
#[derive(Clone, Copy)]
pub struct ItemText<'a>(pub &'a Item);

impl fmt::Display for ItemText<'_> {
    ghost output = { λ text. Some (item_text text.0.now) };

    fn fmt<W: fmt::Write>(&self, f: &mut fmt::Formatter<W>) -> fmt::Result {
        let item = self.0;
        let message = HexText(item.message.as_slice());
        write!(f, "{} {} {message}", item.sender.0, item.number)
    }
}

impl fmt::Display for RecvTurn {
    ghost output = { λ turn. Some (recv_text turn) };

    fn fmt<W: fmt::Write>(&self, f: &mut fmt::Formatter<W>) -> fmt::Result {
        match self {
            RecvTurn::Going => f.write_str("going"),
            RecvTurn::Empty => f.write_str("empty"),
            RecvTurn::Head { tenure, owner } => write!(f, "head {tenure} {}", owner.0),
            RecvTurn::Item(item) => {
                let item = ItemText(item);
                write!(f, "item {item}")
            }
            RecvTurn::Leave(sender) => write!(f, "leave {}", sender.0),
            RecvTurn::End => f.write_str("end"),
        }
    }
}
