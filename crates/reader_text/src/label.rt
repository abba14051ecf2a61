// Labels joined by dots, one put after the other.
ghost use Rattle.std.specs.Prelude.{◌≡◌, ◌+◌, ◌-◌, ◌≤◌, length};
ghost use Rattle.lent.specs.Internal.OverAt.{over_at};
ghost use Rattle.reader_text.specs.Internal.Label.{dotted};

use lent::put::{put_octets, put_octets_at};
use octets::name_rule::DOT;

// A label after the text so far, once so many octets are written out: a dot parts it from the one before.
pub fn put_label(text: &mut [u8], spent: usize, label: &[u8])
    requires { spent + length label.now ≤ length text.old }
    ensures { text.new ≡ over_at (spent - 1) (dotted spent label.now) text.old }
{
    if spent == 0 {
        put_octets(text, label);
        return;
    }
    text[spent - 1] = DOT;
    put_octets_at(text, spent, label);
}
