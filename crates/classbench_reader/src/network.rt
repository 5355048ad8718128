//! Addresses with a prefix length.

ghost use Rattle.std.specs.Prelude.{◌≡◌, IfOk, Err};
ghost use Rattle.classbench_reader.specs.Network.{address_of, family_of, most_bits, network_of};
ghost use Rattle.classbench_reader.specs.Network.{network_without_prefix, IsLawfulNetwork};

use crate::rules_fault::LineKind;
use field_defs::Family;
use text_scan::{ip4_text, ip6_text, split_once, whole_number};

/// An address of either family.
#[derive(Clone, Copy)]
pub enum Address {
    Ip4(u32),
    Ip6(u128),
}

/// An address, and how many of its leading bits count.
#[derive(Clone, Copy)]
pub struct Network {
    pub address: Address,
    pub bits: u8,
}

impl Network {
    /// The network that a word spells: an address, `/` and a number of at most as many bits as the
    /// address has.
    pub fn read(word: &[u8]) -> Result<Network, LineKind>
        ensures network { result ≡ network_of word.now }
        ensures lawful { IfOk result IsLawfulNetwork }
    {
        let Some((text, bits)) = split_once(word, b'/') else {
            return Err(fault_without_prefix(word));
        };
        let address = Address::read(text).ok_or(LineKind::BadAddress)?;
        let bits = whole_number(bits, address.most_bits()).ok_or(LineKind::BadPrefix)?;
        Ok(Network {
            address,
            bits: bits as u8,
        })
    }

    /// The family of the address.
    pub fn family(&self) -> Family
        ensures { result ≡ family_of self.now }
    {
        match self.address {
            Address::Ip4(_) => Family::Ip4,
            Address::Ip6(_) => Family::Ip6,
        }
    }
}

impl Address {
    /// The address that a text spells: an IPv6 address if it has a `:`, else an IPv4 address.
    fn read(text: &[u8]) -> Option<Address>
        ensures { result ≡ address_of text.now }
    {
        if text.contains(&b':') {
            Some(Address::Ip6(ip6_text(text)?))
        } else {
            Some(Address::Ip4(ip4_text(text)?))
        }
    }

    /// How many bits an address of this family has.
    fn most_bits(&self) -> u64
        ensures { result ≡ most_bits self.now }
    {
        match self {
            Address::Ip4(_) => 32,
            Address::Ip6(_) => 128,
        }
    }
}

/// The fault of a word that has no `/`: it lacks a prefix length, if it is an address.
fn fault_without_prefix(word: &[u8]) -> LineKind
    ensures { network_without_prefix word.now ≡ Err result }
{
    match Address::read(word) {
        Some(_) => LineKind::BadPrefix,
        None => LineKind::BadAddress,
    }
}
