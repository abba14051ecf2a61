// The lookups in an accepted image: document 01, "Choosing the answer". Records are lent as parts of the image.
#![tactic(auto)]

pub mod lookup;
