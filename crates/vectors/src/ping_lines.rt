// `ping` and `mailping` lines: the standing image's answer to a client's filter, or to its mailslot message.
use answers::{Form, Refusal, number_of};
use line_words::answer::{say_numbers, say_octets, say_unknown};
use line_words::word::{bits_of, buffer_of, octets_of};
use locator::Answered;
use locator::ping::answer_ping;
use mailslot_answer::answer::answer_mailslot;
use std::alloc::Global;
use std::io;
use std::io::Write;
use table::Caller;

fn form_word(form: Form) -> &'static str {
    match form {
        Form::Nt40 => "nt40",
        Form::Response => "response",
        Form::Ex => "ex",
    }
}

// A refusal has no length, context and form.
fn say_answer<W: Write>(
    to: &mut W,
    kind: &str,
    answer: Result<Answered, Refusal>,
    reply: &[u8],
) -> io::Result<()> {
    match answer {
        Ok(answered) => {
            let context = answered.context.0;
            say_numbers(to, kind, &[0, answered.length as u64, context as u64])?;
            write!(to, " {}", form_word(answered.form))?;
        }
        Err(refusal) => {
            say_numbers(to, kind, &[number_of(refusal) as u64, 0, 0])?;
            write!(to, " {}", "none")?;
        }
    }
    say_octets(to, reply)
}

pub fn answer_ping_line<W: Write>(
    to: &mut W,
    alloc: Global,
    kind: &str,
    fields: &[&str],
    image: &[u8],
) -> io::Result<()> {
    let [client, asked, room] = fields else {
        return say_unknown(to);
    };
    let (Some(client), Some(asked), Some(mut reply)) = (
        bits_of(client),
        octets_of(alloc, asked)?,
        buffer_of(alloc, room)?,
    ) else {
        return say_unknown(to);
    };
    let caller = Caller {
        address: client.to_be_bytes(),
    };
    let answer = if kind == "ping" {
        answer_ping(image, caller, &asked, &mut reply)
    } else {
        answer_mailslot(image, caller, &asked, &mut reply)
    };
    say_answer(to, kind, answer, &reply)
}
