//! Where a rule is read.

use crate::named_chains::NamedChains;
use crate::saved_tables::SavedTable;
use field_defs::Family;
use std::alloc::Global;
use std::marker::Model;

/// Where a rule is read: in a list of packets of a family, of which something is assumed, in a
/// table with these chains, of which one has the rule. Contracts see a record without the memory.
#[derive(Drop)]
pub(crate) struct Setting<'a> {
    pub(crate) alloc: Global,
    pub(crate) family: Family,
    pub(crate) assumed: &'a [u8],
    pub(crate) table: SavedTable,
    pub(crate) chains: &'a NamedChains,
    /// The name of the rule's chain.
    pub(crate) chain: &'a [u8],
}

impl<'a> Model for Setting<'a> {
    ghost use Rattle.iptables_reader.specs.Chains.{RuleSetting};

    ghost Value = { RuleSetting };

    ghost view = { λ setting. record {
      family = setting.family;
      assumed = setting.assumed.now;
      table = setting.table;
      chains = setting.chains.now;
      chain = setting.chain.now;
    } };
}
