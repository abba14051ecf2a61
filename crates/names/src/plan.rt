// Plans names before an octet is written: how much of each is written out, and what ends it.
ghost use Rattle.std.specs.Prelude.{◌≡◌, ◌+◌, ◌≤◌, ◌<◌, not, length, drop, reverse, take_while, zip, ◌==◌};
ghost use Rattle.octets.specs.Label.{labels};
ghost use Rattle.names.specs.Internal.Plan.{to_dot, starts_label, literal_octets, literal_size, offers_size, tails_from, first_aim, better_aim, AimWithin, ending_octets, name_tails, names_tails, plan_by, Fit, AllFit, PlanOf, PlansOf};

use lent::slices::Lent;
use lent::stretch::{Lender, Stretch};
use octets::name_rule::DOT;

// The most names of a reply.
pub const NAMES_MOST: usize = 9;

// A name as it will be written: its text, its offset in the reply, how many octets of its labels are written out, and the offset that it
// then points to, if it doesn't end by a zero octet.
#[derive(Clone, Copy)]
pub struct PlannedName {
    pub text: Stretch,
    pub offset: usize,
    pub literal: usize,
    pub pointer: Option<usize>,
}

// Where a pointer may end a name: the octets of its labels before it, and the offset it points to.
#[derive(Clone, Copy)]
pub struct Aim {
    pub before: usize,
    pub offset: usize,
}

// Names one after the other at the front of the nine places, and the offset after the last.
#[derive(Drop)]
pub struct NamesPlan {
    pub names: [PlannedName; NAMES_MOST],
    pub end: usize,
}

// How many octets a text's first label has: those before the first dot.
fn label_size(text: &[u8]) -> usize
    ensures { result ≡ length (take_while (λ x. not (x == 46)) text.now) }
{
    text.iter().take_while(|x| **x != DOT).count()
}

// Where the label that starts at an offset ends: at the next dot or the end.
pub fn label_end(text: &[u8], start: usize) -> usize
    requires { start ≤ length text.now }
    ensures { (result ≡ start + to_dot (drop start text.now)) × (result ≤ length text.now) }
{
    start + label_size(&text[start..])
}

// A label starts at the front and after each dot.
pub fn starts_label(text: &[u8], at: usize) -> bool
    requires { at ≤ length text.now }
    ensures { result ≡ starts_label text.now at }
{
    at == 0 || text[at - 1] == DOT
}

// How many octets two texts have in common at their ends: what decides for every tail of a name at once.
fn common_tail(a: &[u8], b: &[u8]) -> usize
    ensures { result ≡ length (take_while (λ x. x.0 == x.1) (zip (reverse a.now) (reverse b.now))) }
{
    a.iter()
        .rev()
        .zip(b.iter().rev())
        .take_while(|(x, y)| **x == **y)
        .count()
}

// Whether a name planned before offers a tail of some size: its octets are common, and a label that is written out starts there.
fn offers_tail(earlier: &[u8], literal: usize, size: usize, common: usize) -> bool
    requires { common ≤ length earlier.now }
    ensures { result ≡ offers_size earlier.now literal size common }
{
    if common < size {
        return false;
    }
    let start = earlier.len() - size;
    start < literal && starts_label(earlier, start)
}

// Where a pointer into one name planned before may end a text first.
fn aim_in(earlier: &[u8], offset: usize, literal: usize, text: &[u8]) -> Option<Aim>
    requires { (length earlier.now ≤ 255) × (offset ≤ 8192) × (literal ≤ length (literal_octets earlier.now)) }
    ensures value { result ≡ first_aim (tails_from offset literal (labels earlier.now)) (labels text.now) }
    ensures aim_within { AimWithin (length text.now) result }
{
    if text.len() == 0 {
        return None;
    }
    let common = common_tail(earlier, text);
    let mut before = 0;
    // A `while`, since each turn goes on by a label.
    while before <= text.len() {
        let size = text.len() - before;
        if offers_tail(earlier, literal, size, common) {
            return Some(Aim {
                before,
                offset: offset + (earlier.len() - size),
            });
        }
        before = label_end(text, before) + 1;
    }
    None
}

// The aim with fewer octets before it, the first where they agree.
fn better(a: Option<Aim>, b: Option<Aim>) -> Option<Aim>
    ensures { result ≡ better_aim a b }
{
    let Some(one) = a else {
        return b;
    };
    let Some(other) = b else {
        return a;
    };
    if other.before < one.before { b } else { a }
}

// Where a pointer into any of some names may end a text first.
fn best_aim<'a>(lent: Lent<'a>, names: &[PlannedName], text: &[u8]) -> Option<Aim>
    requires { AllFit lent.table.now lent.request.now names.now }
    ensures value { result ≡ first_aim (names_tails lent.entry.table.now lent.entry.request.now names.now) (labels text.now) }
    ensures aim_within { AimWithin (length text.now) result }
{
    let mut aim = None;
    for name in names {
        aim = better(aim, name.aim(lent, text));
    }
    aim
}

// How many octets the labels of a text of n octets take, written out.
fn literal_size(n: usize) -> usize
    requires { n ≤ 255 }
    ensures { result ≡ literal_size n }
{
    if n == 0 { 0 } else { n + 1 }
}

// The plan of a name of `size` octets by its aim.
fn planned(text: Stretch, size: usize, offset: usize, aim: Option<Aim>) -> PlannedName
    requires { size ≤ 255 }
    ensures { result ≡ plan_by text size offset aim }
{
    match aim {
        Some(aim) => PlannedName {
            text,
            offset,
            literal: aim.before,
            pointer: Some(aim.offset),
        },
        None => PlannedName {
            text,
            offset,
            literal: literal_size(size),
            pointer: None,
        },
    }
}

// Plans a name at an offset, after some others.
pub fn plan_name<'a>(
    lent: Lent<'a>,
    names: &[PlannedName],
    text: Stretch,
    offset: usize,
) -> PlannedName
    requires low { offset ≤ 8192 }
    requires all_fit { AllFit lent.table.now lent.request.now names.now }
    ensures { PlanOf lent.entry.table.now lent.entry.request.now names.now text offset result }
{
    let octets = lent.text(text);
    let aim = best_aim(lent, names, octets);
    planned(text, octets.len(), offset, aim)
}

impl PlannedName {
    // What stands at a place before a name is planned there.
    pub const BLANK: PlannedName = PlannedName {
        text: Stretch {
            lender: Lender::Table,
            start: 0,
            len: 0,
        },
        offset: 0,
        literal: 0,
        pointer: None,
    };

    // How many octets it takes.
    pub fn size(&self) -> usize
        requires { self.now.literal ≤ 256 }
        ensures { result ≡ self.now.literal + length (ending_octets self.now.pointer) }
    {
        match self.pointer {
            Some(_) => self.literal + 2,
            None => self.literal + 1,
        }
    }

    // Where a pointer into it may end a text first.
    fn aim<'a>(&self, lent: Lent<'a>, text: &[u8]) -> Option<Aim>
        requires { Fit lent.table.now lent.request.now self.now }
        ensures value { result ≡ first_aim (name_tails lent.entry.table.now lent.entry.request.now self.now) (labels text.now) }
        ensures aim_within { AimWithin (length text.now) result }
    {
        aim_in(lent.text(self.text), self.offset, self.literal, text)
    }
}

// Plans texts as names one after the other, from an offset on.
pub fn plan_names<'a>(lent: Lent<'a>, texts: &[Stretch], offset: usize) -> NamesPlan
    requires { (length texts.now ≤ 9) × (offset ≤ 4096) }
    ensures { PlansOf lent.entry.table.now lent.entry.request.now texts.now offset result }
{
    let mut names = [PlannedName::BLANK; NAMES_MOST];
    let mut end = offset;
    for (i, text) in texts.iter().enumerate() {
        let name = plan_name(lent, &names[..i], *text, end);
        end += name.size();
        names[i] = name;
    }
    NamesPlan { names, end }
}
