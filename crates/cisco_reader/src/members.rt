//! Members of groups of networks, word by word.

ghost use Rattle.std.specs.Prelude.{◌≡◌, ◌≤◌};
ghost use Rattle.text_scan.specs.Parts.{cut_at, slash};
ghost use Rattle.cisco_reader.specs.Held as meant;
ghost use Rattle.cisco_reader.specs.Read.{Reads};

use crate::fault::LineKind;
use crate::names::number;
use crate::wildcard::{ip4_plain, power};
use crate::words::{Words, is};
use list_chains::Span;
use text_scan::split_once;

/// The greatest IPv4 address.
const ALL_ADDRESSES: u64 = 4_294_967_295;

/// The addresses from one to another.
fn addresses_between(low: u32, high: u32) -> Span
    ensures { result ≡ meant.addresses_between low high }
{
    Span {
        low: u64::from(low),
        high: u64::from(high),
    }
}

/// The addresses of a network, in which the bits after the mask are 0.
fn masked_span(address: u32, mask: u32) -> Result<Span, LineKind>
    ensures { result ≡ meant.masked_span address mask }
{
    let free = ALL_ADDRESSES - u64::from(mask);
    if free & (free + 1) == 0 && !(mask == 0) && u64::from(address) & free == 0 {
        return Ok(Span {
            low: u64::from(address),
            high: u64::from(address) + free,
        });
    }
    Err(LineKind::BadNetworkMask)
}

/// The addresses that agree with one in as many bits as its prefix has.
fn prefixed(address: u32, text: &[u8]) -> Result<Span, LineKind>
    ensures { result ≡ meant.prefixed address text.now }
{
    let bits = number(text, 32).ok_or(LineKind::BadNetworkMask)?;
    let size = power(32 - bits as u32);
    let low = u64::from(address) / size * size;
    Ok(Span {
        low,
        high: low + (size - 1),
    })
}

/// An address with the length of its prefix after a slash, or with its mask.
fn length_or_mask(address: u32, word: &[u8]) -> Result<Span, LineKind>
    ensures { result ≡ meant.length_or_mask address word.now }
{
    if let [b'/', length @ ..] = word {
        return prefixed(address, length);
    }
    masked_span(address, ip4_plain(word).ok_or(LineKind::BadNetworkMask)?)
}

/// A member that no word of its own begins.
fn plain_member(word: &[u8], words: &mut Words) -> Result<Span, LineKind>
    ensures { Reads (meant.plain_member word.now words.old (cut_at slash word.now)) result
        words.new }
{
    if let Some((start, length)) = split_once(word, b'/') {
        let address = ip4_plain(start).ok_or(LineKind::BadAddress)?;
        return prefixed(address, length);
    }
    let address = ip4_plain(word).ok_or(LineKind::BadAddress)?;
    match words.next() {
        Some(word) => length_or_mask(address, word),
        None => Ok(addresses_between(address, address)),
    }
}

/// The addresses of a member of a group of networks that begins with a word.
fn network_member(word: &[u8], words: &mut Words) -> Result<Span, LineKind>
    ensures { Reads (meant.network_member word.now words.old) result words.new }
{
    if is(word, b"any") {
        return Ok(addresses_between(0, u32::MAX));
    }
    if is(word, b"host") {
        let address = words.address(LineKind::BadAddress)?;
        return Ok(addresses_between(address, address));
    }
    if is(word, b"range") {
        let low = words.required()?;
        let high = words.required()?;
        let low = ip4_plain(low).ok_or(LineKind::BadAddress)?;
        let high = ip4_plain(high).ok_or(LineKind::BadAddress)?;
        if low <= high {
            return Ok(addresses_between(low, high));
        }
        return Err(LineKind::BadAddress);
    }
    plain_member(word, words)
}

/// The addresses of a member, or why it isn't read.
pub(crate) fn network_of_words(words: &mut Words) -> Result<Span, LineKind>
    ensures { result ≡ meant.network_of_words words.old }
{
    let word = words.required()?;
    let span = network_member(word, words)?;
    words.end()?;
    Ok(span)
}
