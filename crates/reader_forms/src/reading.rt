// What reading a reply gives, by value: numbers, stretches of the reply, and names by their first offsets.
use octets::part::Stretch;
use reader_names::NameAt;

#[derive(Clone, Copy)]
pub struct Nt40Fields {
    pub opcode: u16,
    pub server: Stretch,
    pub user: Stretch,
    pub domain: Stretch,
    pub version: u32,
}

#[derive(Clone, Copy)]
pub struct ResponseFields {
    pub opcode: u16,
    pub server: Stretch,
    pub user: Stretch,
    pub domain: Stretch,
    pub guid: Stretch,
    pub forest: NameAt,
    pub context: NameAt,
    pub host: NameAt,
    pub ipv4: Stretch,
    pub flags: u32,
    pub version: u32,
}

#[derive(Clone, Copy)]
pub struct ExFields {
    pub opcode: u16,
    pub flags: u32,
    pub guid: Stretch,
    pub forest: NameAt,
    pub context: NameAt,
    pub host: NameAt,
    pub context_netbios: NameAt,
    pub server_netbios: NameAt,
    pub user: NameAt,
    pub own_site: NameAt,
    pub client_site: NameAt,
    // where v asked for it
    pub ipv4: Option<Stretch>,
    // name 8, where it is present
    pub next_site: Option<NameAt>,
    pub version: u32,
}

// The fields of a reply in its form.
#[derive(Clone, Copy)]
pub enum Fields {
    Nt40(Nt40Fields),
    Response(ResponseFields),
    Ex(ExFields),
}

// A reply that was read, with its length.
#[derive(Clone, Copy)]
pub struct Reading {
    pub length: usize,
    pub fields: Fields,
}
