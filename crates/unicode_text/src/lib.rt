// Texts in UTF-8 and UTF-16, and the names of users and accounts, which are UTF-8.
#![tactic(auto)]

pub mod user_name;
pub mod utf16;
pub mod utf8;
