// Where the elements of a filter lie: document 01, "The filter".
ghost use Rattle.std.specs.Prelude.{◌≡◌, ◌+◌, ◌≤◌, ◌<◌, length, IfSome};
ghost use Rattle.octets.specs.Lists.{cut};
ghost use Rattle.octets.specs.Number.{big};
ghost use Rattle.filter_position.specs.Filter.{element_at, equality};
ghost use Rattle.filter_position.specs.Internal.Position.{contents_at, ContentsWithin, ElementWithin, ClauseInside, filter_at, ReadWithin, Inside};

use octets::number::big_u16_at;
use octets::part::Stretch;

// The most octets that a filter may have.
pub const FILTER_LIMIT: usize = 2048;

// A length below this is its own octet; else one octet or two come after this one.
pub const SHORT_LIMIT: u8 = 0x80;

pub const ONE_AFTER: u8 = 0x81;

pub const TWO_AFTER: u8 = 0x82;

// The tags of a filter's elements.
pub const AND_TAG: u8 = 0xA0;

pub const EQUALITY_TAG: u8 = 0xA3;

pub const STRING_TAG: u8 = 0x04;

// A clause as it stands in a filter: its name and its value.
#[derive(Clone, Copy)]
pub struct RawClause {
    pub name: Stretch,
    pub value: Stretch,
}

// A position in a filter: what is still to be read lies from `at` to the end of the element around it.
#[derive(Clone, Copy)]
pub struct Position {
    pub at: usize,
    pub end: usize,
}

// An element: its tag, where its contents start, and where what follows it does.
#[derive(Clone, Copy)]
pub struct Element {
    pub tag: u8,
    pub start: usize,
    pub next: usize,
}

// A filter is a clause, or an AND of filters that lie at a position.
#[derive(Clone, Copy)]
pub enum Filter {
    Clause(RawClause),
    And(Position),
}

// A filter that was read, and the position where the next one begins.
#[derive(Clone, Copy)]
pub struct FilterRead {
    pub filter: Filter,
    pub rest: Position,
}

// The two octets of a longer length, the first of them most significant.
fn two_octets(s: &[u8], at: usize) -> usize
    requires { at + 2 ≤ length s.now }
    ensures value { result ≡ big (cut s.now at 2) }
    ensures upper_bound { result < 65536 }
{
    big_u16_at(s, at) as usize
}

// The contents of the element at `at`, by its length: one octet below 80h, or 81h and one, or 82h and two.
fn contents_at(s: &[u8], at: usize, end: usize) -> Option<Stretch>
    requires { (at + 2 ≤ end) × (end ≤ length s.now) }
    ensures value { result ≡ contents_at s.now at end }
    ensures contents_within { IfSome result (ContentsWithin at end) }
{
    let first = s[at + 1];
    if first < SHORT_LIMIT {
        return Some(Stretch {
            start: at + 2,
            len: first as usize,
        });
    }
    if first == ONE_AFTER {
        if end - at < 3 {
            return None;
        }
        return Some(Stretch {
            start: at + 3,
            len: s[at + 2] as usize,
        });
    }
    if first != TWO_AFTER {
        return None;
    }
    if end - at < 4 {
        return None;
    }
    Some(Stretch {
        start: at + 4,
        len: two_octets(s, at + 2),
    })
}

impl Position {
    // The element here, which ends within what it stands in.
    fn element(self, s: &[u8]) -> Option<Element>
        requires { Inside (length s.now) self }
        ensures value { result ≡ element_at s.now self.at self.end }
        ensures element_within { IfSome result (ElementWithin self) }
    {
        let at = self.at;
        let end = self.end;
        if end - at < 2 {
            return None;
        }
        let contents = contents_at(s, at, end)?;
        let start = contents.start;
        if end - start < contents.len {
            return None;
        }
        Some(Element {
            tag: s[at],
            start,
            next: start + contents.len,
        })
    }

    // The clause of a name and a value that fill this stretch.
    fn equality(self, s: &[u8]) -> Option<RawClause>
        requires { Inside (length s.now) self }
        ensures value { result ≡ equality s.now self.at self.end }
        ensures clause_inside { IfSome result (ClauseInside self.end) }
    {
        let end = self.end;
        let name = self.element(s)?;
        if name.tag != STRING_TAG {
            return None;
        }
        let rest = Position { at: name.next, end };
        let value = rest.element(s)?;
        if value.tag != STRING_TAG {
            return None;
        }
        if value.next != end {
            return None;
        }
        Some(RawClause {
            name: Stretch {
                start: name.start,
                len: name.next - name.start,
            },
            value: Stretch {
                start: value.start,
                len: value.next - value.start,
            },
        })
    }

    // The filter here, and the position where the next one begins.
    pub fn filter(self, s: &[u8]) -> Option<FilterRead>
        requires { Inside (length s.now) self }
        ensures value { result ≡ filter_at s.now self.at self.end }
        ensures read_within { IfSome result (ReadWithin self) }
    {
        let element = self.element(s)?;
        let inside = Position {
            at: element.start,
            end: element.next,
        };
        let rest = Position {
            at: element.next,
            end: self.end,
        };
        if element.tag == EQUALITY_TAG {
            let clause = inside.equality(s)?;
            return Some(FilterRead {
                filter: Filter::Clause(clause),
                rest,
            });
        }
        if element.tag != AND_TAG {
            return None;
        }
        Some(FilterRead {
            filter: Filter::And(inside),
            rest,
        })
    }
}
