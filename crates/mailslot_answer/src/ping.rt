// The ping that a mailslot message is.
ghost use Rattle.std.specs.Prelude.{◌≡◌, length, Ok};
ghost use Rattle.filter_read.specs.Internal.RawPing.{ping_at};
ghost use Rattle.mailslot.specs.Message.{message_in};
ghost use Rattle.mailslot_answer.specs.Ping.{message_ping};
ghost use Rattle.mailslot_answer.specs.Internal.Source.{source_size, ClauseAt};

use filter_read::ping::RawPing;
use lent::put::put_octets_at;
use mailslot::message::Message;
use octets::part::Stretch;
use transcode::to8::put_utf8;

// Room for the longest user as UTF-8, 63 octets, and the longest SID, 68.
pub const SOURCE_SIZE: usize = 131;

// Here, unlike in a filter, what is empty is absent.
fn clause_at(start: usize, len: usize) -> Option<Stretch>
    ensures { ClauseAt start len result }
{
    if len == 0 {
        return None;
    }
    Some(Stretch { start, len })
}

// Puts the user as UTF-8 and the SID into the source, of which the clauses are stretches: so the answer has no third lender.
pub fn put_ping(source: &mut [u8], message: &[u8], read: Message) -> RawPing
    requires { (message_in message.now ≡ Ok read) × (length source.old ≡ source_size) }
    ensures { ping_at source.new result ≡ message_ping message.now read }
{
    let user_size = put_utf8(source, read.user.of(message));
    let end = put_octets_at(source, user_size, read.sid.of(message));
    RawPing {
        dns_domain: None,
        user: clause_at(0, user_size),
        aac: read.bits,
        domain_sid: clause_at(user_size, end - user_size),
        domain_guid: None,
        version: read.version,
    }
}
