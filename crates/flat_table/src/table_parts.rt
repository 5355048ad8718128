//! What a table is made of.

use table_sizes::ROW_LEN;

/// The numbers and lists of which a table is made. Contracts see each vector as its list.
#[derive(Drop)]
pub struct Parts {
    /// How many bytes a key has: 1 and a multiple of 4, at most 505.
    pub key_len: u32,
    /// How many rules the table was made of. Nothing is asked of it.
    pub rules: u32,
    /// For each trie its kept groups: bit g for group g.
    pub kept: Vec<u128>,
    /// For each trie the word that a walk begins with.
    pub roots: Vec<u64>,
    /// For each trie and each of its kept places, in order, how many words that level has.
    pub level_lens: Vec<u32>,
    /// The words, trie by trie and level by level.
    pub words: Vec<u64>,
    /// For each row a word for each category: 0 where no rule wins, or else the winner's rank in
    /// its high half and its userdata in its low half. Row 0 has sixteen zeros.
    pub rows: Vec<[u64; ROW_LEN]>,
}
