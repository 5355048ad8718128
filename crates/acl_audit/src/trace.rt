//! From a row back to the first byte of its least key.

ghost use Rattle.std.specs.Prelude.{◌≡◌, ◌+◌, ◌-◌, ◌<◌, ◌≤◌, ◌++◌, ℕ, [], length, replicate, All};
ghost use Rattle.std.specs.Prelude.{slice_index_or, OnOk, IfOk};
ghost use Rattle.table_sizes.specs.Groups.{max_key_len};
ghost use Rattle.table_sizes.specs.Sizes.{max_words};
ghost use Rattle.group_states.specs.Levels.{levels_of};
ghost use Rattle.acl_audit.specs.Least.{all_rules};
ghost use Rattle.acl_audit.specs.Traced.{traced, AreChained, keys_traced};
ghost use Rattle.acl_audit.specs.Ways.{IsWay};

use crate::links::{Links, links_of};
use crate::places::kept_places;
use rule_set::RuleSet;
use std::alloc::{AllocError, Global};
use trie_merge::Levels;

/// What leads from the rows of merged states back to their least keys.
#[derive(Drop)]
pub(crate) struct Way {
    /// The links of the kept places.
    pub(crate) links: Vec<Links>,
    /// The kept places.
    pub(crate) places: Vec<usize>,
    /// How many bytes a key has.
    pub(crate) key_len: usize,
}

/// The way back from the rows of the merged states of all rules.
pub(crate) fn way_of(alloc: Global, rules: &RuleSet, levels: &Levels) -> Result<Way, AllocError>
    requires some { 0 < length rules.now.rules }
    requires levels { levels.now ≡ levels_of rules.now (all_rules rules.now) }
    requires within { levels.now.words ≤ max_words }
    ensures { IfOk result
        (λ way. IsWay rules.now levels.now way.links.items way.places.items way.key_len) }
{
    let _rules = rules.all();
    let _fields = rules.layout().fields();
    rule_set::laws::the_winner_is_among_all_places();
    let key_len = rules.layout().key_len();
    let places = kept_places(alloc, levels.kept(), key_len)?;
    let links = links_of(alloc, levels)?;
    Ok(Way {
        links,
        places,
        key_len,
    })
}

/// Writes the bytes at the kept places that lead to the row first.
fn trace(links: &[Links], places: &[usize], row: usize, key: &mut [u8])
    requires chained { AreChained links.now }
    requires row { row < length (slice_index_or links.now (length links.now - 1) []) }
    requires long { length places.now ≡ length links.now }
    requires places { All (λ place. place < length key.old) places.now }
    ensures { key.new ≡ traced links.now places.now (length links.now) row key.old }
{
    let mut number = row;
    for passed in 0..links.len() {
        let depth = links.len() - 1 - passed;
        let link = links[depth].at(number);
        key[places[depth]] = link.byte;
        number = link.before as usize;
    }
}

/// Puts so many bytes 0 after the others.
fn push_zeros(keys: &mut Vec<u8>, count: usize) -> Result<(), AllocError>
    requires { count ≤ max_key_len }
    ensures { OnOk result (keys.new.items ≡ keys.old.items ++ replicate count 0) }
{
    keys.resize(keys.len() + count, 0)
}

/// Puts the row's least key, which has so many bytes, after the others.
fn push_key(
    keys: &mut Vec<u8>,
    links: &[Links],
    places: &[usize],
    key_len: usize,
    row: usize,
) -> Result<(), AllocError>
    requires len { key_len ≤ max_key_len }
    requires chained { AreChained links.now }
    requires row { row < length (slice_index_or links.now (length links.now - 1) []) }
    requires long { length places.now ≡ length links.now }
    requires places { All (λ place. place < key_len) places.now }
    ensures { OnOk result (keys.new.items ≡ keys.old.items
        ++ traced links.now places.now (length links.now) row (replicate key_len 0)) }
{
    let start = keys.len();
    push_zeros(keys, key_len)?;
    trace(links, places, row, &mut keys[start..]);
    Ok(())
}

/// The least key of the row, which has so many bytes.
pub(crate) fn row_key(
    alloc: Global,
    links: &[Links],
    places: &[usize],
    key_len: usize,
    row: usize,
) -> Result<Vec<u8>, AllocError>
    requires len { key_len ≤ max_key_len }
    requires chained { AreChained links.now }
    requires row { row < length (slice_index_or links.now (length links.now - 1) []) }
    requires long { length places.now ≡ length links.now }
    requires places { All (λ place. place < key_len) places.now }
    ensures { IfOk result (λ key. key.items
        ≡ traced links.now places.now (length links.now) row (replicate key_len 0)) }
{
    let mut key = Vec::new(alloc);
    push_key(&mut key, links, places, key_len, row)?;
    Ok(key)
}

/// The least keys of so many rows, one after the other.
pub(crate) fn row_keys(
    alloc: Global,
    links: &[Links],
    places: &[usize],
    key_len: usize,
    rows: usize,
) -> Result<Vec<u8>, AllocError>
    requires len { key_len ≤ max_key_len }
    requires chained { AreChained links.now }
    requires rows { rows ≤ length (slice_index_or links.now (length links.now - 1) []) }
    requires long { length places.now ≡ length links.now }
    requires places { All (λ place. place < key_len) places.now }
    ensures { IfOk result (λ keys. keys.items ≡ keys_traced links.now places.now key_len rows) }
{
    let mut keys = Vec::new(alloc);
    for row in 0..rows {
        push_key(&mut keys, links, places, key_len, row)?;
    }
    Ok(keys)
}
