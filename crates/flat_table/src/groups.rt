//! Groups of key bytes: which places of a key a trie reads.
//!
//! A trie keeps some groups, bit g of its word for group g, and its walks pass over the bytes
//! of the others: a group in which every rule of the trie lets every byte through decides nothing.

ghost use Rattle.std.specs.Prelude.{◌≡◌, ◌+◌, ◌-◌, ◌*◌, ◌/◌, ◌%◌, ◌^◌, ◌<◌, ◌≤◌, IsTrue};
ghost use Rattle.table_sizes.specs.Groups.{kept_places, max_key_len};
ghost use Rattle.flat_table.specs.Groups.{is_key_len, is_kept_word, groups_of, depth_of};

use arrayvec::ArrayVec;
use table_sizes::{GROUP_LEN, MAX_KEY_LEN, is_kept};

/// The places of a key that a trie reads, ascending.
pub(crate) type Places = ArrayVec<u16, MAX_KEY_LEN>;

/// Whether a key is one byte and whole groups, and not too long.
pub(crate) fn is_key_len(key_len: u32) -> bool
    ensures { result ≡ is_key_len key_len }
{
    let key_len = key_len as usize;
    key_len % GROUP_LEN == 1 && key_len <= MAX_KEY_LEN
}

/// Whether some group of the key is kept, and none that it hasn't.
pub fn is_kept_word(key_len: u32, kept: u128) -> bool
    requires { IsTrue (is_key_len key_len) }
    ensures { result ≡ is_kept_word key_len kept }
{
    let groups = 1 + (key_len as usize - 1) / GROUP_LEN;
    kept > 0 && kept >> groups == 0
}

/// How many places of a key are kept.
pub fn depth_of(key_len: u32, kept: u128) -> usize
    requires { key_len ≤ max_key_len }
    ensures value { result ≡ depth_of key_len kept }
    ensures bound { result ≤ key_len }
{
    (0..key_len as usize)
        .filter(|place| is_kept(kept, *place))
        .count()
}

/// The places of a key that are kept, ascending.
pub(crate) fn kept_places(key_len: u32, kept: u128) -> Places
    requires { key_len ≤ max_key_len }
    ensures { result.items ≡ kept_places key_len kept }
{
    let mut places = Places::new();
    for place in 0..key_len as usize {
        if is_kept(kept, place) {
            places.push(place as u16);
        }
    }
    places
}
