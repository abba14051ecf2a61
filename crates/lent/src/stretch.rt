// Stretches of two slices that are lent together.
ghost use Rattle.std.specs.Prelude.{◌≤◌};

pub use crate::slices::slot_text;

// Which of the two a stretch lies in: the table image, or the octets that the ping came in.
#[derive(Clone, Copy)]
pub enum Lender {
    Table,
    Request,
}

// Where a text of a reply lies. No text of document 01 is over 255 octets, so that lengths and offsets stay small.
#[derive(Clone, Copy)]
pub struct Stretch {
    pub lender: Lender,
    pub start: usize,
    pub len: usize,
    pub ghost short: { len ≤ 255 },
}
