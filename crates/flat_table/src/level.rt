//! Where a level of a trie lies.

ghost use Rattle.std.specs.Prelude.{◌≡◌, ◌+◌, ◌^◌, ◌<◌, length};
ghost use Rattle.flat_table.specs.Table.{levels_from};
ghost use Rattle.flat_table.specs.Sound.{first_level, leads_into};

use crate::word::{index_of, is_node, node_len};

/// The words of one level of a trie: so many, from a place on.
#[derive(Clone, Copy)]
pub struct Level {
    /// The place of the first word.
    pub from: usize,
    /// How many words the level has.
    pub len: usize,
}

impl Level {
    /// The first of the levels of these lengths, from a place on, or one in which no node lies.
    pub fn first(from: usize, lens: &[u32]) -> Level
        ensures level { result ≡ first_level (levels_from from lens.now) }
        ensures bound { result.from + result.len < from + 2 ^ 32 }
    {
        match lens.first() {
            Some(len) => Level {
                from,
                len: *len as usize,
            },
            None => Level { from: 0, len: 0 },
        }
    }

    /// Whether the word leads to a node that lies whole in the level.
    pub fn holds_node_of(self, word: u64) -> bool
        requires { self.from + self.len < 2 ^ 64 }
        ensures { result ≡ leads_into self word }
    {
        let first = index_of(word);
        is_node(word) && self.from <= first && first + node_len(word) <= self.from + self.len
    }
}
