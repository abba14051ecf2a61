// The octets of a message, written where there is room for them.
ghost use Rattle.std.specs.Prelude.{◌≡◌, ◌++◌, ◌+◌, ◌≤◌, length, replicate};
ghost use Rattle.lent.specs.Internal.OverAt.{over_at};
ghost use Rattle.octets.specs.Buffer.{over};
ghost use Rattle.octets.specs.Stretch.{stretch_of};
ghost use Rattle.mailslot.specs.Longest.{message_most};
ghost use Rattle.mailslot.specs.Message.{message_head, message_octets, padded_sid};

use answers::wire::LOGON_SAM_LOGON_REQUEST;
use lent::put::{put_octets_at, put_u16_at, put_u32_at};
use mailslot::message::Message;
use mailslot::padding::sid_padding;
use octets::part::{Stretch, part};
use reply::fields::put_ending_at;

// Zeros: a text has two after it, a mailslot's name one, a SID up to three before it.
fn put_zeros_at(out: &mut [u8], at: usize, count: usize) -> usize
    requires { (count ≤ 3) × (at + count ≤ length out.old) }
    ensures value { result ≡ at + count }
    ensures out_after { out.new ≡ over_at at (replicate count 0) out.old }
{
    let zeros: [u8; 3] = [0; 3];
    put_octets_at(out, at, part(&zeros, 0, count))
}

// A stretch of the source, and the zeros that end it.
fn put_ended_at(out: &mut [u8], at: usize, source: &[u8], text: Stretch, zeros: usize) -> usize
    requires { (zeros ≤ 3) × (at + length (stretch_of source.now text) + zeros ≤ length out.old) }
    ensures value { result ≡ at + length (stretch_of source.now text) + zeros }
    ensures out_after { out.new ≡ over_at at (stretch_of source.now text ++ replicate zeros 0) out.old }
{
    let at = put_octets_at(out, at, text.of(source));
    put_zeros_at(out, at, zeros)
}

// What stands before the SID and its padding.
fn put_head(out: &mut [u8], source: &[u8], message: Message) -> usize
    requires message_len_bound { length (message_octets source.now message) ≤ message_most }
    requires message_in_bounds { length (message_head source.now message) ≤ length out.old }
    ensures value { result ≡ length (message_head source.now message) }
    ensures out_after { out.new ≡ over (message_head source.now message) out.old }
{
    let at = put_u16_at(out, 0, LOGON_SAM_LOGON_REQUEST);
    let at = put_u16_at(out, at, message.repeat);
    let at = put_ended_at(out, at, source, message.computer, 2);
    let at = put_ended_at(out, at, source, message.user, 2);
    let at = put_ended_at(out, at, source, message.mailslot, 1);
    let at = put_u32_at(out, at, message.bits);
    put_u32_at(out, at, message.sid.of(source).len() as u32)
}

// A SID behind its padding, from an offset on.
fn put_sid_at(out: &mut [u8], at: usize, sid: &[u8]) -> usize
    requires { (length sid.now ≤ message_most) × (at + length (padded_sid at sid.now) ≤ length out.old) }
    ensures value { result ≡ at + length (padded_sid at sid.now) }
    ensures out_after { out.new ≡ over_at at (padded_sid at sid.now) out.old }
{
    let size = sid.len() as u32;
    let at = put_zeros_at(out, at, sid_padding(size, at));
    put_octets_at(out, at, sid)
}

// A message, whole.
pub fn put_message(out: &mut [u8], source: &[u8], message: Message)
    requires message_len_bound { length (message_octets source.now message) ≤ message_most }
    requires message_in_bounds { length (message_octets source.now message) ≤ length out.old }
    ensures { out.new ≡ over (message_octets source.now message) out.old }
{
    let at = put_head(out, source, message);
    let at = put_sid_at(out, at, message.sid.of(source));
    put_ending_at(out, at, message.version);
}
