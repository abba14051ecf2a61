// What C and Rust link: the public calls, exported. Each is total: it asks nothing of what it is passed. A struct that is lent is the array of its members.
#![tactic(auto)]

ghost use Rattle.c_promises.specs.Calls.{ExportedJudge, ExportedCheck, ExportedTakeApart, ExportedJudgeValues, ExportedWriteFilter, ExportedAnswerPing, ExportedReadMailslot, ExportedWriteMailslot, ExportedAnswerMailslot, ExportedRead, ExportedNameText};

use answers::{Form, number_in};
use c_answer::answer::{ANSWER_MEMBERS, answer_members};
use c_calls::calls::{
    put_check, put_filter, put_message, put_message_members, put_reading, put_request, put_text,
    put_version,
};
use c_mailslot::message::MESSAGE_MEMBERS;
use c_reading::reading::READING_MEMBERS;
use c_request::request::REQUEST_MEMBERS;
use locator::ping::answer_ping;
use mailslot_answer::answer::answer_mailslot;
use reader_text::TEXT_MOST;
use table::Caller;
use table_whole::judge::judge;

#[unsafe(no_mangle)]
pub extern "C" fn vinegarjar_judge(image: &[u8]) -> u8
    ensures { ExportedJudge image.now result }
{
    number_in(&judge(image))
}

#[unsafe(no_mangle)]
pub extern "C" fn vinegarjar_check(octets: &[u8], check: &mut [u32; 2])
    ensures { ExportedCheck octets.now check.new }
{
    put_check(octets, check)
}

#[unsafe(no_mangle)]
pub extern "C" fn vinegarjar_take_apart(filter: &[u8], request: &mut [usize; REQUEST_MEMBERS]) -> u8
    ensures { ExportedTakeApart filter.now request.new result }
{
    put_request(filter, request)
}

#[unsafe(no_mangle)]
pub extern "C" fn vinegarjar_judge_values(
    filter: &[u8],
    request: &[usize; REQUEST_MEMBERS],
    version: &mut u32,
) -> u8
    ensures { ExportedJudgeValues filter.now request.now version.new result }
{
    put_version(filter, request, version)
}

#[unsafe(no_mangle)]
pub extern "C" fn vinegarjar_write_filter(
    source: &[u8],
    request: &[usize; REQUEST_MEMBERS],
    out: &mut [u8],
    length: &mut usize,
) -> u8
    ensures { ExportedWriteFilter source.now request.now out.old out.new length.new result }
{
    put_filter(source, request, out, length)
}

#[unsafe(no_mangle)]
pub extern "C" fn vinegarjar_answer_ping<'a>(
    image: &'a [u8],
    client: &[u8; 4],
    filter: &'a [u8],
    reply: &mut [u8],
    answer: &mut [usize; ANSWER_MEMBERS],
) -> u8
    ensures { ExportedAnswerPing image.now client.now filter.now reply.old reply.new answer.new result }
{
    let caller = Caller { address: *client };
    let given = answer_ping(image, caller, filter, reply);
    *answer = answer_members(given);
    number_in(&given)
}

#[unsafe(no_mangle)]
pub extern "C" fn vinegarjar_read_mailslot(
    message: &[u8],
    members: &mut [usize; MESSAGE_MEMBERS],
) -> u8
    ensures { ExportedReadMailslot message.now members.new result }
{
    put_message_members(message, members)
}

#[unsafe(no_mangle)]
pub extern "C" fn vinegarjar_write_mailslot(
    source: &[u8],
    members: &[usize; MESSAGE_MEMBERS],
    out: &mut [u8],
    length: &mut usize,
) -> u8
    ensures { ExportedWriteMailslot source.now members.now out.old out.new length.new result }
{
    put_message(source, members, out, length)
}

#[unsafe(no_mangle)]
pub extern "C" fn vinegarjar_answer_mailslot<'a>(
    image: &'a [u8],
    client: &[u8; 4],
    message: &'a [u8],
    reply: &mut [u8],
    answer: &mut [usize; ANSWER_MEMBERS],
) -> u8
    ensures { ExportedAnswerMailslot image.now client.now message.now reply.old reply.new answer.new result }
{
    let caller = Caller { address: *client };
    let given = answer_mailslot(image, caller, message, reply);
    *answer = answer_members(given);
    number_in(&given)
}

#[unsafe(no_mangle)]
pub extern "C" fn vinegarjar_read_nt40(reply: &[u8], reading: &mut [usize; READING_MEMBERS]) -> u8
    ensures { ExportedRead Form.Nt40 0 reply.now reading.new result }
{
    put_reading(reply, Form::Nt40, 0, reading)
}

#[unsafe(no_mangle)]
pub extern "C" fn vinegarjar_read_response(
    reply: &[u8],
    reading: &mut [usize; READING_MEMBERS],
) -> u8
    ensures { ExportedRead Form.Response 0 reply.now reading.new result }
{
    put_reading(reply, Form::Response, 0, reading)
}

#[unsafe(no_mangle)]
pub extern "C" fn vinegarjar_read_ex(
    reply: &[u8],
    version: u32,
    reading: &mut [usize; READING_MEMBERS],
) -> u8
    ensures { ExportedRead Form.Ex version reply.now reading.new result }
{
    put_reading(reply, Form::Ex, version, reading)
}

#[unsafe(no_mangle)]
pub extern "C" fn vinegarjar_name_text(
    reply: &[u8],
    start: usize,
    text: &mut [u8; TEXT_MOST],
    length: &mut usize,
) -> u8
    ensures { ExportedNameText reply.now start text.new length.new result }
{
    put_text(reply, start, text, length)
}
