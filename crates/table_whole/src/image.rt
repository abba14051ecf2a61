// An image that was accepted: its octets, of which the type says that they pass 1 to 4. In a clause it is its octets.
ghost use Rattle.std.specs.Prelude.{◌≡◌};
ghost use Rattle.table_whole.specs.Judgement.{Accepted, image_in};

use crate::judge::judge;
use answers::Refusal;
use std::marker::Model;

#[derive(Drop)]
pub struct AcceptedImage<'a> {
    octets: &'a [u8],
}

impl<'a> Model for AcceptedImage<'a> {
    ghost use Rattle.std.specs.Prelude.{List, ℕ};
    ghost use Rattle.table_whole.specs.Judgement.{Accepted};

    ghost Value = { List ℕ };

    ghost view = { λ image. image.octets.now };

    ghost invariant = { λ image. Accepted image.octets.now };
}

impl<'a> AcceptedImage<'a> {
    // An image, judged.
    pub fn judge(octets: &'a [u8]) -> Result<AcceptedImage<'a>, Refusal>
        ensures { result ≡ image_in octets.now }
    {
        judge(octets)?;
        Ok(AcceptedImage { octets })
    }

    // An image that its owner judged before.
    pub fn judged_before(octets: &'a [u8]) -> AcceptedImage<'a>
        requires { Accepted octets.now }
        ensures { result ≡ octets.now }
    {
        AcceptedImage { octets }
    }

    pub fn octets(&self) -> &'a [u8]
        ensures same { result.now ≡ self.now }
        ensures accepted { Accepted self.now }
    {
        self.octets
    }
}
