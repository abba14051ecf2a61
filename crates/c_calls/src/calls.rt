// A public call each: its number is returned, the rest stands in the members of a struct, 0 with a refusal.
ghost use Rattle.std.specs.Prelude.{◌≡◌};
ghost use Rattle.std.specs.Result.{result_unwrap_or};
ghost use Rattle.answers.specs.Try.{number_of};
ghost use Rattle.filter_read.specs.Taken.{request_in};
ghost use Rattle.filter_write.specs.Write.{WriteFilterLeaves};
ghost use Rattle.mailslot.specs.Message.{message_in};
ghost use Rattle.mailslot_write.specs.Write.{WriteMessageLeaves};
ghost use Rattle.reader_text.specs.Text.{name_text_lem, name_text_as};
ghost use Rattle.table_check.specs.Check.{check_of_lem};
ghost use Rattle.c_request.specs.Request.{request_given, taken_members};
ghost use Rattle.c_mailslot.specs.Message.{message_of, message_members};
ghost use Rattle.c_reading.specs.Reading.{reading_members};
ghost use Rattle.c_calls.specs.Calls.{check_members, values_judged, filter_written, reply_read, message_written};

use answers::{Form, Refusal, number_in};
use c_mailslot::message::{MESSAGE_MEMBERS, message_given, message_members};
use c_reading::reading::{READING_MEMBERS, reading_members};
use c_request::request::{REQUEST_MEMBERS, request_of, taken_members};
use filter_read::read::take_apart;
use filter_read::value::judge_values;
use filter_write::write::write_filter;
use mailslot_read::read::read_message;
use mailslot_write::write::write_message;
use reader_reply::read::read_reply;
use reader_text::TEXT_MOST;
use reader_text::text::name_text;
use table_check::check::check_of;

pub fn put_check(octets: &[u8], check: &mut [u32; 2])
    ensures { check.new ≡ check_members (check_of_lem octets.now) }
{
    let sums = check_of(octets);
    *check = [sums.a, sums.b];
}

pub fn put_request(filter: &[u8], request: &mut [usize; REQUEST_MEMBERS]) -> u8
    ensures value { result ≡ number_of (request_in filter.now) }
    ensures request_after { request.new ≡ taken_members (request_in filter.now) }
{
    let taken = take_apart(filter);
    *request = taken_members(taken);
    number_in(&taken)
}

pub fn put_version(filter: &[u8], request: &[usize; REQUEST_MEMBERS], version: &mut u32) -> u8
    ensures value { result ≡ number_of (values_judged filter.now request.now) }
    ensures version_after { version.new ≡ result_unwrap_or (values_judged filter.now request.now) 0 }
{
    let judged = judge_values(filter, request_of(request));
    *version = judged.unwrap_or(0);
    number_in(&judged)
}

pub fn put_filter(
    source: &[u8],
    request: &[usize; REQUEST_MEMBERS],
    out: &mut [u8],
    length: &mut usize,
) -> u8
    ensures value { result ≡ number_of (filter_written source.now request.now out.old) }
    ensures length_after { length.new ≡ result_unwrap_or (filter_written source.now request.now out.old) 0 }
    ensures write_filter_leaves { WriteFilterLeaves source.now (request_given request.now) out.old out.new }
{
    let written = write_filter(source, request_of(request), out);
    *length = written.unwrap_or(0);
    number_in(&written)
}

pub fn put_reading(
    reply: &[u8],
    form: Form,
    version: u32,
    reading: &mut [usize; READING_MEMBERS],
) -> u8
    ensures value { result ≡ number_of (reply_read form version reply.now) }
    ensures reading_after { reading.new ≡ reading_members (reply_read form version reply.now) }
{
    let read = read_reply(reply, form, version);
    *reading = reading_members(read);
    number_in(&read)
}

pub fn put_text(reply: &[u8], start: usize, text: &mut [u8; TEXT_MOST], length: &mut usize) -> u8
    ensures value { result ≡ number_of (name_text_as (name_text_lem reply.now start)).len }
    ensures text_after { text.new ≡ (name_text_as (name_text_lem reply.now start)).octets }
    ensures length_after { length.new ≡ result_unwrap_or (name_text_as (name_text_lem reply.now start)).len 0 }
{
    let name = name_text(reply, start);
    *text = name.octets;
    *length = name.len.unwrap_or(0);
    number_in(&name.len)
}

pub fn put_message_members(message: &[u8], members: &mut [usize; MESSAGE_MEMBERS]) -> u8
    ensures value { result ≡ number_of (message_in message.now) }
    ensures members_after { members.new ≡ message_members (message_in message.now) }
{
    let read = read_message(message);
    *members = message_members(read);
    number_in(&read)
}

// A number past its field's width is 41, like whatever else breaks a message's limits.
fn message_written(
    source: &[u8],
    members: &[usize; MESSAGE_MEMBERS],
    out: &mut [u8],
) -> Result<usize, Refusal>
    ensures value { result ≡ message_written source.now members.now out.old }
    ensures write_message_leaves { WriteMessageLeaves source.now (message_of members.now) out.old out.new }
{
    let message = message_given(members).ok_or(Refusal::MailslotShape)?;
    write_message(source, message, out)
}

pub fn put_message(
    source: &[u8],
    members: &[usize; MESSAGE_MEMBERS],
    out: &mut [u8],
    length: &mut usize,
) -> u8
    ensures value { result ≡ number_of (message_written source.now members.now out.old) }
    ensures length_after { length.new ≡ result_unwrap_or (message_written source.now members.now out.old) 0 }
    ensures write_message_leaves { WriteMessageLeaves source.now (message_of members.now) out.old out.new }
{
    let written = message_written(source, members, out);
    *length = written.unwrap_or(0);
    number_in(&written)
}
