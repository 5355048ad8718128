//! What all tries of a table have: kept groups, roots, level lengths and words.

ghost use Rattle.std.specs.Prelude.{◌≡◌, ◌+◌, ◌≤◌, ◌++◌, map, length, sum_by, OnOk, IfOk};
ghost use Rattle.group_states.specs.Levels.{LevelsView};
ghost use Rattle.table_sizes.specs.Sizes.{max_words};
ghost use Rattle.table_fill.specs.Filled.{level_len, nodes_len, roots_of, level_lens_of};
ghost use Rattle.table_fill.specs.Filled.{words_of_tries};
ghost use Rattle.table_fill.specs.Tries.{HasNodes, HaveRoom};

use crate::trie::{level_len, nodes_len, push_trie, root_at};
use std::alloc::{AllocError, Global};
use trie_merge::Levels;

/// The kept groups of each trie.
pub(crate) fn kept_of(alloc: Global, tries: &[Levels]) -> Result<Vec<u128>, AllocError>
    ensures { IfOk result (λ kept. kept.items ≡ map (λ (trie : LevelsView). trie.kept) tries.now) }
{
    let mut kept = Vec::with_capacity(alloc, tries.len())?;
    for trie in tries {
        kept.push(trie.kept())?;
    }
    Ok(kept)
}

/// The root of each trie.
pub(crate) fn roots_of(alloc: Global, tries: &[Levels]) -> Result<Vec<u64>, AllocError>
    requires { HaveRoom tries.now }
    ensures { IfOk result (λ roots. roots.items ≡ roots_of 0 tries.now) }
{
    let mut roots = Vec::with_capacity(alloc, tries.len())?;
    let mut place = 0;
    for trie in tries {
        roots.push(root_at(place, trie))?;
        place += nodes_len(trie);
    }
    Ok(roots)
}

/// Puts how many words each level of the trie has after the others.
fn push_level_lens(lens: &mut Vec<u32>, trie: &Levels) -> Result<(), AllocError>
    requires nodes { HasNodes trie.now }
    requires size { trie.now.words ≤ max_words }
    ensures { OnOk result (lens.new.items ≡ lens.old.items ++ map level_len trie.now.levels) }
{
    for depth in 0..trie.depths() {
        lens.push(level_len(trie, depth) as u32)?;
    }
    Ok(())
}

/// How many words each level of each trie has.
pub(crate) fn level_lens_of(alloc: Global, tries: &[Levels]) -> Result<Vec<u32>, AllocError>
    requires { HaveRoom tries.now }
    ensures { IfOk result (λ lens. lens.items ≡ level_lens_of tries.now) }
{
    let mut lens = Vec::new(alloc);
    for trie in tries {
        push_level_lens(&mut lens, trie)?;
    }
    Ok(lens)
}

/// How many words the nodes of all tries have.
fn words_len(tries: &[Levels]) -> usize
    requires { HaveRoom tries.now }
    ensures { result ≡ sum_by nodes_len tries.now }
{
    let mut words = 0;
    for trie in tries {
        words += nodes_len(trie);
    }
    words
}

/// The words of all tries. The rows of the first one are numbered from 1 on.
pub(crate) fn words_of(alloc: Global, tries: &[Levels]) -> Result<Vec<u64>, AllocError>
    requires { HaveRoom tries.now }
    ensures { IfOk result (λ words. words.items ≡ words_of_tries 0 1 tries.now) }
{
    let mut words = Vec::with_capacity(alloc, words_len(tries))?;
    let mut row = 1;
    for trie in tries {
        push_trie(alloc, &mut words, trie, row)?;
        row += trie.rows();
    }
    Ok(words)
}
