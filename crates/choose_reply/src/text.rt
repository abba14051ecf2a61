// The texts of a reply, as stretches of the table image or of the ping's source.
ghost use Rattle.std.specs.Prelude.{◌≡◌, false, not, [], ◌+◌, ◌≤◌, ◌<◌, length, option_map, unwrap_or};
ghost use Rattle.octets.specs.Lists.{cut, holds};
ghost use Rattle.unicode_text.specs.UserName.{is_user_name};
ghost use Rattle.filter.specs.Request.{octets_of};
ghost use Rattle.table.specs.declared.record.RecordKind.TheVariants as kind;
ghost use Rattle.table.specs.Block.{block_size};
ghost use Rattle.table.specs.Field.{text_at};
ghost use Rattle.table_find.specs.Internal.Found.{LiesIn, site_at};
ghost use Rattle.choose_reply.specs.Internal.Lends.{InTable, InRequest};

use lent::stretch::{Lender, Stretch};
use octets::number::wide;
use octets::part::{self, part};
use table::field::{TextField, octet_in};
use table::site;

const NO_TEXT: Stretch = Stretch {
    lender: Lender::Table,
    start: 0,
    len: 0,
};

// The text of a field, in the body or record of some width at an offset of the image.
pub fn text_stretch(image: &[u8], offset: usize, width: usize, field: TextField) -> Stretch
    requires { (offset + width ≤ length image.now) × (field.offset < width) × (width ≤ block_size) }
    ensures { InTable image.now result (text_at (cut image.now offset width) field) }
{
    let at = field.offset;
    let octets = part(image, offset, width);
    let len = wide(octet_in(octets, at)) as usize;
    Stretch {
        lender: Lender::Table,
        start: offset + (at + 1),
        len: part(octets, at + 1, len).len(),
    }
}

// The name of a site, if any.
pub fn site_name(image: &[u8], found: Option<usize>) -> Stretch
    requires { LiesIn image.now kind.Site found }
    ensures { InTable image.now result (unwrap_or (option_map (λ s. s.name) (site_at image.now found)) []) }
{
    let Some(offset) = found else {
        return NO_TEXT;
    };
    text_stretch(image, offset, site::FORMAT.width, site::NAME)
}

// The user asked for, if any.
pub fn user_text(source: &[u8], clause: Option<part::Stretch>) -> Stretch
    requires { holds (λ x. not (is_user_name x)) (octets_of source.now clause) ≡ false }
    ensures { InRequest source.now result (unwrap_or (octets_of source.now clause) []) }
{
    let Some(user) = clause else {
        return NO_TEXT;
    };
    Stretch {
        lender: Lender::Request,
        start: user.start,
        len: user.of(source).len(),
    }
}
