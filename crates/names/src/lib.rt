// RFC 1035 names in a reply: document 01, "Reply octets" and "Reading a reply".
#![tactic(auto)]

pub mod plan;
