// The answers of document 01, "Answer numbers" and "Reading a reply", and of document 02: why a call refuses, and the three forms of a reply.
#![tactic(auto)]

pub mod wire;

ghost use Rattle.std.specs.Prelude.{◌≡◌};
ghost use Rattle.answers.specs.Refusal.{NumberOfPromise};
ghost use Rattle.answers.specs.Try.{number_of};

// A refusal.
#[derive(Clone, Copy)]
pub enum Refusal {
    ImageLength,
    BlockCheck,
    BlockLayout,
    TableWhole,
    FilterLength,
    FilterShape,
    UnknownClause,
    DuplicateClause,
    ClauseValue,
    GuidLength,
    GuidNotHeld,
    DnsNameEmpty,
    DnsNameNotHeld,
    SidShape,
    SidNotHeld,
    SidOfAnother,
    UserLabelEmpty,
    NoRoom,
    ReplyCut,
    ReplyOpcode,
    ReplyText,
    ReplyFixed,
    ReplyLeftOver,
    MailslotShape,
}

// The number that document 01 gives a refusal.
pub fn number_of(r: Refusal) -> u8
    ensures { NumberOfPromise r result }
{
    match r {
        Refusal::ImageLength => 1,
        Refusal::BlockCheck => 2,
        Refusal::BlockLayout => 3,
        Refusal::TableWhole => 4,
        Refusal::FilterLength => 5,
        Refusal::FilterShape => 6,
        Refusal::UnknownClause => 7,
        Refusal::DuplicateClause => 8,
        Refusal::ClauseValue => 9,
        Refusal::GuidLength => 11,
        Refusal::GuidNotHeld => 12,
        Refusal::DnsNameEmpty => 13,
        Refusal::DnsNameNotHeld => 14,
        Refusal::SidShape => 15,
        Refusal::SidNotHeld => 16,
        Refusal::SidOfAnother => 17,
        Refusal::UserLabelEmpty => 18,
        Refusal::NoRoom => 19,
        Refusal::ReplyCut => 31,
        Refusal::ReplyOpcode => 32,
        Refusal::ReplyText => 33,
        Refusal::ReplyFixed => 34,
        Refusal::ReplyLeftOver => 35,
        Refusal::MailslotShape => 41,
    }
}

// Document 01's number of any answer: 0, or that of the refusal.
pub fn number_in<T>(answer: &Result<T, Refusal>) -> u8
    ensures { result ≡ number_of answer.now }
{
    match answer {
        Ok(_) => 0,
        Err(refusal) => number_of(*refusal),
    }
}

// The form of a reply.
#[derive(Clone, Copy)]
pub enum Form {
    Nt40,
    Response,
    Ex,
}
