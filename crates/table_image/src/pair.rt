//! Pairs of tables.

use flat_table::Table;

/// The tables of both families. Contracts see each as its parts.
#[derive(Drop)]
pub struct TablePair {
    /// The table of IPv4 packets, whose keys have 13 bytes.
    pub ip4: Table,
    /// The table of IPv6 packets, whose keys have 37 bytes.
    pub ip6: Table,
}
