// A message as the members of `struct locator_mailslot`: three numbers, then four stretches.
ghost use Rattle.std.specs.Prelude.{◌≡◌, ◌≤◌, eqb};
ghost use Rattle.c_mailslot.specs.Message.{stretch_at, sid_unless, message_members};
ghost use Rattle.c_mailslot.specs.Internal.Given.{GivenBy};

use answers::Refusal;
use mailslot::message::Message;
use octets::part::Stretch;

pub const MESSAGE_MEMBERS: usize = 15;

// Where members stand.
pub const REPEAT: usize = 0;

pub const BITS: usize = 1;

pub const VERSION: usize = 2;

pub const COMPUTER: usize = 3;

pub const USER: usize = 6;

pub const MAILSLOT: usize = 9;

pub const SID: usize = 12;

// 0 is not present, any other number present.
fn stretch_at(members: &[usize; MESSAGE_MEMBERS], at: usize) -> Stretch
    requires { at ≤ 12 }
    ensures { result ≡ stretch_at members.now at }
{
    if members[at] == 0 {
        return Stretch { start: 0, len: 0 };
    }
    Stretch {
        start: members[at + 1],
        len: members[at + 2],
    }
}

// The message that members make; none where one of their numbers is past its field's width.
pub fn message_given(members: &[usize; MESSAGE_MEMBERS]) -> Option<Message>
    ensures { GivenBy members.now result }
{
    let Ok(repeat) = u16::try_from(members[REPEAT]) else {
        return None;
    };
    let Ok(bits) = u32::try_from(members[BITS]) else {
        return None;
    };
    let Ok(version) = u32::try_from(members[VERSION]) else {
        return None;
    };
    Some(Message {
        repeat,
        computer: stretch_at(members, COMPUTER),
        user: stretch_at(members, USER),
        mailslot: stretch_at(members, MAILSLOT),
        bits,
        sid: stretch_at(members, SID),
        version,
    })
}

// A number of four octets as a member.
fn member_of(number: u32) -> usize
    ensures { result ≡ number }
{
    number as usize
}

// A SID of no octets is not present.
fn sid_members(sid: Stretch) -> [usize; 3]
    ensures { result ≡ sid_unless (eqb sid.len 0) sid }
{
    if sid.len == 0 {
        return [0, 0, 0];
    }
    [1, sid.start, sid.len]
}

// The other texts are always present, though they may be empty.
fn good_members(message: Message) -> [usize; MESSAGE_MEMBERS]
    ensures { result ≡ message_members (Ok message) }
{
    let [sid, sid_start, sid_len] = sid_members(message.sid);
    [
        message.repeat as usize,
        member_of(message.bits),
        member_of(message.version),
        1,
        message.computer.start,
        message.computer.len,
        1,
        message.user.start,
        message.user.len,
        1,
        message.mailslot.start,
        message.mailslot.len,
        sid,
        sid_start,
        sid_len,
    ]
}

// A message that was read: its members, with a refusal none.
pub fn message_members(read: Result<Message, Refusal>) -> [usize; MESSAGE_MEMBERS]
    ensures { result ≡ message_members read }
{
    match read {
        Ok(message) => good_members(message),
        Err(_) => [0; MESSAGE_MEMBERS],
    }
}
