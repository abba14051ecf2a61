// An answer number with its meaning: document 01, "Answer numbers" and "Reading a reply", and document 02.
use answers::{Form, Refusal, number_in};
use std::io;
use std::io::Write;

fn meaning_of(refusal: Refusal) -> &'static str {
    match refusal {
        Refusal::ImageLength => "the table image is not 2 to 128 blocks of 512 octets",
        Refusal::BlockCheck => "the check of some block of the table is wrong",
        Refusal::BlockLayout => "the layout of some block of the table is wrong",
        Refusal::TableWhole => "the table is wrong as a whole",
        Refusal::FilterLength => "the filter is over 2,048 octets long",
        Refusal::FilterShape => "the filter is not of the shape that is read",
        Refusal::UnknownClause => "the filter has a clause of another name",
        Refusal::DuplicateClause => "the filter has a clause twice",
        Refusal::ClauseValue => {
            "NtVer or AAC is not 4 octets, or User is over 63, not UTF-8 or has a zero octet"
        }
        Refusal::GuidLength => "DomainGuid is not 16 octets",
        Refusal::GuidNotHeld => "no context has this DomainGuid",
        Refusal::DnsNameEmpty => "DnsDomain is empty",
        Refusal::DnsNameNotHeld => "no context has this DnsDomain",
        Refusal::SidShape => "DomainSid is not a SID",
        Refusal::SidNotHeld => "no context has this DomainSid",
        Refusal::SidOfAnother => "DomainSid is not that of the context used",
        Refusal::UserLabelEmpty =>
            "the reply would be EX, and a part of User between dots is empty",
        Refusal::NoRoom => "the reply is longer than the buffer",
        Refusal::ReplyCut => "the reply is cut short",
        Refusal::ReplyOpcode => "the opcode is not one of this form",
        Refusal::ReplyText => "a text or a name is broken",
        Refusal::ReplyFixed => "a fixed field has another value",
        Refusal::ReplyLeftOver => "octets are left over after the reply",
        Refusal::MailslotShape => "the mailslot message is not of the shape that is read",
    }
}

// The line of an answer. What one that is no refusal means is the program's to say.
pub fn say_answer<T, W: Write>(
    to: &mut W,
    answer: &Result<T, Refusal>,
    good: &str,
) -> io::Result<()> {
    write!(to, "answer    {}", number_in(answer))?;
    match answer {
        Ok(_) => writeln!(to, ", {good}"),
        Err(refusal) => writeln!(to, ", refused: {}", meaning_of(*refusal)),
    }
}

pub fn say_form<W: Write>(to: &mut W, form: Form) -> io::Result<()> {
    let name = match form {
        Form::Nt40 => "NT40\n",
        Form::Response => "RESPONSE\n",
        Form::Ex => "EX\n",
    };
    write!(to, "form      {name}")
}
