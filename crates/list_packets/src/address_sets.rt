//! Sets of addresses as spans of their two halves.

ghost use Rattle.std.specs.Prelude.{◌≡◌, ◌++◌, ◌/◌, ◌%◌, ◌^◌, OnOk};
ghost use Rattle.std.specs.Option.{option_to_list};
ghost use Rattle.list_packets.specs.AddressSets.{between, multicast_spans, only, range_spans};
ghost use Rattle.list_packets.specs.AddressSets.{set_spans};

use crate::assumed::put_locals;
use crate::values::{AddressRange, AddressSpans, ip4_spans};
use field_defs::Family;
use list_chains::Span;
use std::alloc::AllocError;

/// Which addresses are meant.
#[derive(Clone, Copy)]
pub enum AddressSet {
    /// Those with a prefix.
    Network(AddressSpans),
    /// Those from one to another.
    Range(AddressRange),
    /// Those that are assumed to be local.
    Local,
    /// 224.0.0.0/4
    Multicast,
    /// Addresses that no rule file says.
    Unsaid,
}

/// Puts the spans of a set after others: one, or of a range up to three, or those of the local
/// addresses that are assumed. It takes memory for these.
pub fn put_set(
    into: &mut Vec<AddressSpans>,
    family: Family,
    assumed: &[u8],
    set: AddressSet,
) -> Result<(), AllocError>
    ensures { OnOk result
        (into.new.items ≡ into.old.items ++ set_spans family assumed.now set) }
{
    match set {
        AddressSet::Network(spans) => {
            into.push(spans)?;
            Ok(())
        }
        AddressSet::Range(range) => put_range(into, range),
        AddressSet::Local => put_locals(into, family, assumed),
        AddressSet::Multicast => {
            into.push(multicast())?;
            Ok(())
        }
        AddressSet::Unsaid => Ok(()),
    }
}

/// 224.0.0.0/4
fn multicast() -> AddressSpans
    ensures { result ≡ multicast_spans }
{
    ip4_spans(0xE000_0000, 4)
}

/// Puts the spans of the addresses from one to another: those with the high half of the first,
/// those with a higher one, and those with that of the last.
fn put_range(into: &mut Vec<AddressSpans>, range: AddressRange) -> Result<(), AllocError>
    ensures { OnOk result (into.new.items ≡ into.old.items ++ range_spans range) }
{
    let first = high_half(range.low);
    let last = high_half(range.high);
    let low = low_half(range.low);
    let high = low_half(range.high);
    if first == last {
        into.push(of_half(first, low, high))?;
        return Ok(());
    }
    into.push(of_half(first, low, u64::MAX))?;
    put_between(into, between(first, last))?;
    into.push(of_half(last, 0, high))?;
    Ok(())
}

/// Puts spans, if there are some.
fn put_between(into: &mut Vec<AddressSpans>, spans: Option<AddressSpans>) -> Result<(), AllocError>
    ensures { OnOk result (into.new.items ≡ into.old.items ++ option_to_list spans) }
{
    match spans {
        Some(spans) => {
            into.push(spans)?;
            Ok(())
        }
        None => Ok(()),
    }
}

/// The addresses whose high half lies between two others, if there are any.
fn between(first: u64, last: u64) -> Option<AddressSpans>
    ensures { result ≡ between first last }
{
    if last < 2 || first > last - 2 {
        return None;
    }
    Some(AddressSpans {
        high: Span {
            low: first + 1,
            high: last - 1,
        },
        low: Span {
            low: 0,
            high: u64::MAX,
        },
    })
}

/// The addresses of a high half whose low half is from one to another.
fn of_half(half: u64, low: u64, high: u64) -> AddressSpans
    ensures { result ≡ only half low high }
{
    AddressSpans {
        high: Span {
            low: half,
            high: half,
        },
        low: Span { low, high },
    }
}

/// The high half of an address.
fn high_half(address: u128) -> u64
    ensures { result ≡ address / 2 ^ 64 }
{
    (address >> 64) as u64
}

/// The low half of an address.
fn low_half(address: u128) -> u64
    ensures { result ≡ address % 2 ^ 64 }
{
    (address & u128::from(u64::MAX)) as u64
}
