//! The pieces of 16 bits of an IPv6 address, read group by group.

ghost use Rattle.std.specs.Prelude.{◌≡◌, ◌≢◌, ℕ, ◌+◌, ◌-◌, ◌^◌, ◌<◌, ◌≤◌, ◌∷◌, [], ◌&&◌, nat_le};
ghost use Rattle.std.specs.Prelude.{nat_lt, if◌then◌else◌, length, slice_index, IfSome};
ghost use Rattle.text_scan.specs.Parts.{colon, parts_of};
ghost use Rattle.text_scan.specs.Ip6.{are_groups, are_last_groups, groups_of, is_ip6_end};
ghost use Rattle.text_scan.specs.Ip6.{pieces_of, pieces_of_all};
ghost use Rattle.text_scan.specs.Pieces.{pieces_from, with_pieces};

use crate::digits::group_value;
use crate::ip4::ip4_text;

/// Pieces that follow one another in an address, at most eight.
#[derive(Clone, Copy)]
pub struct Pieces {
    /// How many there are.
    pub count: u32,
    /// What they spell, the most significant first.
    pub value: u128,
}

impl Pieces {
    const NONE: Pieces = Pieces { count: 0, value: 0 };

    /// These pieces and one more. None where there are eight already.
    fn with(self, piece: u16) -> Option<Pieces>
        requires { self.value < 65536 ^ self.count }
        ensures fits { IfSome result (λ pieces. pieces.value < 65536 ^ pieces.count) }
        ensures pieces { result ≡
            (if nat_lt self.count 8 then Some (with_pieces self (piece ∷ [])) else None) }
    {
        if self.count >= 8 {
            return None;
        }
        Some(Pieces {
            count: self.count + 1,
            value: self.value * 0x1_0000 + u128::from(piece),
        })
    }

    /// These pieces and those of the last part of an address: a group or an IPv4 address.
    fn with_end(self, part: &[u8]) -> Option<Pieces>
        requires { self.value < 65536 ^ self.count }
        ensures fits { IfSome result (λ pieces. pieces.value < 65536 ^ pieces.count) }
        ensures pieces { let more = pieces_of part.now in
            result ≡ (if is_ip6_end part.now && nat_le (self.count + length more) 8
            then Some (with_pieces self more) else None) }
    {
        match ip4_text(part) {
            Some(address) => self
                .with((address >> 16) as u16)?
                .with((address & 0xffff) as u16),
            None => self.with(group_value(part, 16, 4)?),
        }
    }
}

/// The pieces of groups; an empty text has none.
pub fn first_pieces(text: &[u8]) -> Option<Pieces>
    ensures fits { IfSome result (λ pieces. pieces.value < 65536 ^ pieces.count) }
    ensures pieces { let groups = groups_of text.now in
        let pieces = pieces_of_all groups in
        result ≡ (if are_groups groups && nat_le (length pieces) 8
        then Some (pieces_from pieces) else None) }
{
    if text.is_empty() {
        return Some(Pieces::NONE);
    }
    pieces_of_groups(text)
}

/// The pieces of groups, the last of which may be an IPv4 address; an empty text has none.
pub fn last_pieces(text: &[u8]) -> Option<Pieces>
    ensures fits { IfSome result (λ pieces. pieces.value < 65536 ^ pieces.count) }
    ensures pieces { let groups = groups_of text.now in
        let pieces = pieces_of_all groups in
        result ≡ (if are_last_groups groups && nat_le (length pieces) 8
        then Some (pieces_from pieces) else None) }
{
    if text.is_empty() {
        return Some(Pieces::NONE);
    }
    let last = last_part(text);
    if last == 0 {
        return Pieces::NONE.with_end(text);
    }
    pieces_of_groups(&text[..last - 1])?.with_end(&text[last..])
}

/// Where the last part begins: after the last `:`, or at 0 where there is none.
fn last_part(text: &[u8]) -> usize
    ensures within { result ≤ length text.now }
    ensures after { 0 < result → slice_index text.now (result - 1) ≡ colon }
    ensures last { (k : ℕ) → result ≤ k → k < length text.now → slice_index text.now k ≢ colon }
{
    let mut place = text.len();
    while place > 0 && text[place - 1] != b':' {
        place -= 1;
    }
    place
}

/// The pieces of groups separated by `:`, at least one.
fn pieces_of_groups(text: &[u8]) -> Option<Pieces>
    ensures fits { IfSome result (λ pieces. pieces.value < 65536 ^ pieces.count) }
    ensures pieces { let groups = parts_of colon text.now in
        let pieces = pieces_of_all groups in
        result ≡ (if are_groups groups && nat_le (length pieces) 8
        then Some (pieces_from pieces) else None) }
{
    let mut pieces = Pieces::NONE;
    for part in text.split(|byte| *byte == b':') {
        pieces = pieces.with(group_value(part, 16, 4)?)?;
    }
    Some(pieces)
}
