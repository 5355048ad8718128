//! What the first twelve bytes of a block say.

use crate::kind::Kind;
use pcap_reader::Order;

/// What a block is for, the order of its numbers, and its length in bytes.
#[derive(Clone, Copy)]
pub struct Front {
    pub kind: Kind,
    pub order: Order,
    pub total: u32,
}
