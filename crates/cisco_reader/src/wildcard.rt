//! Addresses under a wildcard mask, in which a set bit is one that doesn't count.

ghost use Rattle.std.specs.Prelude.{◌≡◌, ◌≤◌, ◌<◌, ◌^◌, ◌++◌, IfOk, OnOk};
ghost use Rattle.cisco_reader.specs.Wildcard.{counts, gaps, ip4_plain, is_free, ones, spans_from};
ghost use Rattle.cisco_reader.specs.Wildcard.{spans_under};

use list_chains::Span;
use std::alloc::{AllocError, Global};
use text_scan::{ip4_text, put_ip4};

/// The addresses that agree with `base` in the bits that `free` hasn't. The others are 0 in `base`.
#[derive(Clone, Copy)]
pub(crate) struct Wildcard {
    pub(crate) base: u64,
    pub(crate) free: u64,
}

/// The IPv4 address that a text spells as it is printed, without leading zeros.
pub(crate) fn ip4_plain(text: &[u8]) -> Option<u32>
    ensures { result ≡ ip4_plain text.now }
{
    let address = ip4_text(text)?;
    let mut printed = [0; 40];
    let len = put_ip4(address, &mut printed);
    (text == &printed[..len]).then_some(address)
}

/// The number of the last bits, all set.
fn ones(bits: u32) -> u64
    requires { bits ≤ 32 }
    ensures { result ≡ ones bits }
{
    power(bits) - 1
}

/// The number of one bit.
pub(crate) fn power(bit: u32) -> u64
    requires { bit ≤ 32 }
    ensures is { result ≡ 2 ^ bit }
    ensures some { 0 < result }
{
    1 << bit
}

/// Whether none of the last bits counts.
fn is_free(bits: u32, free: u64) -> bool
    requires { bits ≤ 32 }
    ensures { result ≡ is_free bits free }
{
    free & ones(bits) == ones(bits)
}

/// Whether a bit counts.
fn counts(bit: u32, free: u64) -> bool
    requires { bit ≤ 32 }
    ensures { result ≡ counts bit free }
{
    free & power(bit) == 0
}

/// How many of the last bits don't count, but for those at the end.
pub(crate) fn gaps(bits: u32, free: u64) -> u32
    requires { bits ≤ 32 }
    ensures is { result ≡ gaps bits free }
    ensures few { result ≤ bits }
{
    if bits == 0 {
        return 0;
    }
    if is_free(bits, free) {
        return 0;
    }
    let rest = gaps(bits - 1, free);
    if counts(bits - 1, free) {
        return rest;
    }
    rest + 1
}

/// Puts the spans of the addresses that begin as `base` does, of which so many bits are left.
fn put_spans(into: &mut Vec<Span>, bits: u32, base: u64, free: u64) -> Result<(), AllocError>
    requires { bits ≤ 32 }
    ensures { OnOk result (into.new.items ≡ into.old.items ++ spans_from bits base free) }
{
    if bits == 0 {
        into.push(Span {
            low: base,
            high: base,
        })?;
        return Ok(());
    }
    if is_free(bits, free) {
        into.push(Span {
            low: base,
            high: base | ones(bits),
        })?;
        return Ok(());
    }
    let bit = bits - 1;
    put_spans(into, bit, base, free)?;
    if counts(bit, free) {
        return Ok(());
    }
    put_spans(into, bit, base | power(bit), free)
}

/// The spans of the addresses under a mask, in their order. It takes the memory of them.
pub(crate) fn spans_under(alloc: Global, it: Wildcard) -> Result<Vec<Span>, AllocError>
    ensures { IfOk result (λ spans. spans.items ≡ spans_under it) }
{
    let mut spans = Vec::new(alloc);
    put_spans(&mut spans, 32, it.base, it.free)?;
    Ok(spans)
}
