// Where the forest's DNS name stands.
use crate::BlockPlace;
use crate::field::TextField;
use octets::name_rule::DNS_NAME_MOST;

pub const KIND: u8 = 2;

pub const PLACE: BlockPlace = BlockPlace(1);

pub const NAME: TextField = TextField {
    offset: 0,
    room: DNS_NAME_MOST,
};
