// What is known of a reply before an octet is written: its names as they will stand, and its length.
ghost use Rattle.std.specs.Prelude.{◌≡◌};
ghost use Rattle.reply.specs.Internal.Plan.{last_name};

use crate::raw::NEXT_SITE;
use names::plan::{NAMES_MOST, PlannedName};

// The names at their places, as many as the form writes.
#[derive(Clone, Copy)]
pub struct Plan {
    pub names: [PlannedName; NAMES_MOST],
    pub length: usize,
}

impl Plan {
    // Name 8.
    pub fn last_name(&self) -> &PlannedName
        ensures { result.now ≡ last_name self.now.names }
    {
        &self.names[NEXT_SITE]
    }
}
