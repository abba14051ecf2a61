// Site numbers, each marked once and then looked up: eight marks in an octet, for each of the 65,536 numbers.
ghost use Rattle.std.specs.Prelude.{◌≡◌, true, [], length};
ghost use Rattle.octets.specs.Lists.{unique};
ghost use Rattle.table_refer.specs.Internal.Mark.{no_marks, is_marked, with_mark, Marked, same_site_at};

use table::record::{RecordKind, record_at};
use table::{SiteNumber, site};

const MARKS_SIZE: usize = 8192;

// A mark for each number.
#[derive(Drop)]
pub struct Marks {
    octets: [u8; MARKS_SIZE],
}

impl Marks {
    // No number is marked.
    pub fn new() -> Marks
        ensures { result ≡ no_marks }
    {
        Marks {
            octets: [0; MARKS_SIZE],
        }
    }

    #[tactic(auto, unfolding(crate::specs::Internal::Mark::is_marked))]
    pub fn is_marked(&self, number: SiteNumber) -> bool
        ensures { result ≡ is_marked self.now number }
    {
        let n = number.0;
        let at = (n / 8) as usize;
        (self.octets[at] >> (n % 8)) % 2 == 1
    }

    fn mark(&mut self, number: SiteNumber)
        ensures { self.new ≡ with_mark self.old number }
    {
        let n = number.0;
        let at = (n / 8) as usize;
        self.octets[at] |= 1 << (n % 8);
    }
}

// Marks the number of each site, from the last one on: a number is held against those after it.
pub fn mark_sites(image: &[u8], sites: &[u16], marks: &mut Marks) -> bool
    requires { Marked marks.old image.now [] }
    ensures value { result ≡ unique (same_site_at image.now) sites.now }
    ensures marked { result ≡ true → Marked marks.new image.now sites.now }
{
    for i in (0..sites.len()).rev() {
        let number = site::number(record_at(image, RecordKind::Site, sites[i]));
        if marks.is_marked(number) {
            return false;
        }
        marks.mark(number);
    }
    true
}
