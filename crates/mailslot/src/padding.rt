// The padding before a SID, for reader and writer.
ghost use Rattle.std.specs.Prelude.{◌≡◌, ◌≤◌};
ghost use Rattle.mailslot.specs.Message.{padding};
ghost use Rattle.mailslot.specs.Internal.Shape.{sid_padding};

// The octets up to a multiple of four, counted from the message's first.
fn padding_at(at: usize) -> usize
    ensures { (result ≡ padding at) × (result ≤ 3) }
{
    (4 - at % 4) % 4
}

// Those before a SID; none where there is no SID.
pub fn sid_padding(size: u32, at: usize) -> usize
    ensures { (result ≡ sid_padding size at) × (result ≤ 3) }
{
    if size == 0 {
        return 0;
    }
    padding_at(at)
}
