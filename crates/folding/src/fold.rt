// Unicode's simple case folding by its table; code points past it stand for themselves.
ghost use Rattle.std.specs.Prelude.{◌≡◌, ◌<◌};
ghost use Rattle.octets.specs.Fold.{fold_table_lem, fold_point};
ghost use Rattle.unicode_text.specs.Internal.Point.{point_limit};

// The code points below have an entry each.
pub const FOLD_END: usize = 0x530;

// What each code point below FOLD_END folds to. It is lent, since naming a constant copies it whole.
#[derive(Drop)]
pub struct FoldTable {
    pub entries: [u16; FOLD_END],
    pub ghost is_unicode: { entries ≡ fold_table_lem },
}

// An entry as a code point.
fn entry_point(entry: u16) -> u32
    ensures { (result ≡ entry) × (result < point_limit) }
{
    entry as u32
}

impl FoldTable {
    pub fn fold_point(&self, point: u32) -> u32
        ensures value { result ≡ fold_point point }
        ensures upper_bound { point < point_limit → result < point_limit }
    {
        let at = point as usize;
        if at < FOLD_END {
            return entry_point(self.entries[at]);
        }
        point
    }
}
