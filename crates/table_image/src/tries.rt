//! The tries of a table, read field by field.

ghost use Rattle.std.specs.Prelude.{◌≡◌, ◌+◌, ◌*◌, ◌-◌, ◌≤◌, ◌<◌, ◌^◌, length, sum, IfOk, IfErr, OnOk, Ok, Err, nat_le, IsTrue};
ghost use Rattle.std.specs.Prelude.{[], ◌∷◌, ◌++◌};
ghost use Rattle.flat_table.specs.Groups.{is_key_len, depth_of};
ghost use Rattle.flat_table.specs.Sound.{leads_into, first_level};
ghost use Rattle.flat_table.specs.Table.{levels_from};
ghost use Rattle.table_sizes.specs.Sizes.{max_words};
ghost use Rattle.table_image.specs.declared.load_fault.ImageKind.TheVariants.{TooMany, Unsound};
ghost use Rattle.table_image.specs.Spelling.{all_groups, kept_len};
ghost use Rattle.table_image.specs.ImageReading.{numbers, tested, level_fits, kept_groups, one_trie, trie_of, tries_after, no_tries};
ghost use Rattle.table_image.specs.Loading.{IsFaultOf, tries_of};

use crate::field::{LONG, SHORT, checked, long, short};
use crate::list::push;
use crate::load_fault::{ImageFault, ImageKind, LoadFault};
use crate::version::Version;
use flat_table::{Level, depth_of, is_kept_word};
use std::alloc::{AllocError, Global};
use table_sizes::MAX_WORDS;

/// The tries of a table that were read so far.
#[derive(Drop)]
pub(crate) struct Tries {
    pub kept: Vec<u128>,
    pub roots: Vec<u64>,
    pub level_lens: Vec<u32>,
    /// How many words the levels have together.
    pub words: usize,
    /// The place of the field after them.
    pub end: usize,
}

/// All groups of a key.
fn all_groups(key_len: u32) -> u128
    requires { IsTrue (is_key_len key_len) }
    ensures { result ≡ all_groups key_len }
{
    (1 << (1 + (key_len - 1) / 4)) - 1
}

/// The place after the kept groups that stand at a place.
fn after_kept(version: Version, at: usize) -> usize
    requires { at + kept_len version < 2 ^ 64 }
    ensures { result ≡ at + kept_len version }
{
    match version {
        Version::One => at,
        Version::Two => at + SHORT,
    }
}

/// How many words the levels have together.
fn sum_of(lens: &[u32]) -> usize
    requires { sum lens.now ≤ max_words }
    ensures { result ≡ sum lens.now }
{
    let mut words = 0;
    for len in lens {
        words += *len as usize;
    }
    words
}

/// The kept groups of a trie.
fn kept_groups(version: Version, key_len: u32, bytes: &[u8], at: usize) -> Result<u128, ImageFault>
    requires key { IsTrue (is_key_len key_len) }
    requires inside { at ≤ length bytes.now }
    ensures kept { result ≡ kept_groups version key_len bytes.now at }
    ensures inside { IfOk result (λ _. at + kept_len version ≤ length bytes.now) }
{
    match version {
        Version::One => Ok(all_groups(key_len)),
        Version::Two => {
            let kept = u128::from(short(bytes, at)?);
            checked(kept, is_kept_word(key_len, kept), ImageKind::KeptGroups, at)
        }
    }
}

/// Whether a level of so many words more leaves few enough of them.
fn level_fits(words: usize, len: u32) -> bool
    requires { words ≤ max_words }
    ensures { result ≡ nat_le (words + len) max_words }
{
    words + len as usize <= MAX_WORDS
}

/// The lengths of so many levels, where so many words are taken already.
fn level_lens(
    alloc: Global,
    taken: usize,
    bytes: &[u8],
    from: usize,
    depth: usize,
) -> Result<Vec<u32>, LoadFault>
    requires inside { from ≤ length bytes.now }
    requires room { taken ≤ max_words }
    ensures lens { IfOk result
        (λ lens. numbers TooMany 4 (level_fits taken) bytes.now from depth ≡ Ok lens.items) }
    ensures fault { IfErr result
        (IsFaultOf (numbers TooMany 4 (level_fits taken) bytes.now from depth)) }
    ensures sum { IfOk result (λ lens. taken + sum lens.items ≤ max_words) }
    ensures count { IfOk result (λ lens. length lens.items ≡ depth) }
    ensures end { IfOk result (λ _. from + 4 * depth ≤ length bytes.now) }
{
    let mut lens = Vec::new(alloc);
    let mut words = taken;
    let mut at = from;
    for level in 0..depth {
        let len = short(bytes, at)?;
        let len = checked(len, level_fits(words, len), ImageKind::TooMany, at)?;
        push(&mut lens, len)?;
        words += len as usize;
        at += SHORT;
    }
    Ok(lens)
}

/// The root at the place, which leads into the first of levels of these lengths. They come after so
/// many words.
fn read_root(words: usize, lens: &[u32], bytes: &[u8], at: usize) -> Result<u64, ImageFault>
    requires room { words + sum lens.now ≤ max_words }
    requires inside { at ≤ length bytes.now }
    ensures root { result ≡ tested Unsound 8
        (leads_into (first_level (levels_from words lens.now))) bytes.now at }
    ensures inside { IfOk result (λ _. at + 8 ≤ length bytes.now) }
{
    let root = long(bytes, at)?;
    let level = Level::first(words, lens);
    checked(root, level.holds_node_of(root), ImageKind::Unsound, at)
}

impl Tries {
    /// No tries, at the place.
    fn new(alloc: Global, at: usize) -> Tries
        ensures none { tries_of result ≡ no_tries at }
        ensures words { result.words ≡ 0 }
    {
        Tries {
            kept: Vec::new(alloc),
            roots: Vec::new(alloc),
            level_lens: Vec::new(alloc),
            words: 0,
            end: at,
        }
    }

    /// Puts a trie after the others. The field after it stands at the place.
    fn add(&mut self, kept: u128, root: u64, lens: &[u32], end: usize) -> Result<(), AllocError>
        requires { self.old.words + sum lens.now ≤ max_words }
        ensures tries { OnOk result (tries_of self.new ≡ record {
          kept = self.old.kept.items ++ kept ∷ [];
          roots = self.old.roots.items ++ root ∷ [];
          level_lens = self.old.level_lens.items ++ lens.now;
          end = end;
        }) }
        ensures words { OnOk result (self.new.words ≡ self.old.words + sum lens.now) }
    {
        push(&mut self.kept, kept)?;
        push(&mut self.roots, root)?;
        self.level_lens.extend_from_slice(lens)?;
        self.words += sum_of(lens);
        self.end = end;
        Ok(())
    }

    /// Reads the levels and the root of a trie that keeps these groups and has so many levels.
    fn read_kept(
        &mut self,
        alloc: Global,
        version: Version,
        taken: usize,
        bytes: &[u8],
        kept: u128,
        depth: usize,
    ) -> Result<(), LoadFault>
        requires inside { self.old.end + kept_len version ≤ length bytes.now }
        requires words { self.old.words ≡ sum self.old.level_lens.items }
        requires room { taken + self.old.words ≤ max_words }
        ensures trie { OnOk result (trie_of version taken bytes.now (tries_of self.old) kept depth
            ≡ Ok (tries_of self.new)) }
        ensures fault { IfErr result
            (IsFaultOf (trie_of version taken bytes.now (tries_of self.old) kept depth)) }
        ensures inside { OnOk result (self.new.end ≤ length bytes.now) }
        ensures words { OnOk result (self.new.words ≡ sum self.new.level_lens.items) }
        ensures room { OnOk result (taken + self.new.words ≤ max_words) }
    {
        let lens_at = after_kept(version, self.end);
        let lens = level_lens(alloc, taken + self.words, bytes, lens_at, depth)?;
        let root_at = lens_at + SHORT * depth;
        let root = read_root(self.words, &lens, bytes, root_at)?;
        self.add(kept, root, &lens, root_at + LONG)?;
        Ok(())
    }

    /// Reads one trie more, of a table of which the rows take so many words.
    fn read_one(
        &mut self,
        alloc: Global,
        version: Version,
        key_len: u32,
        taken: usize,
        bytes: &[u8],
    ) -> Result<(), LoadFault>
        requires key { IsTrue (is_key_len key_len) }
        requires inside { self.old.end ≤ length bytes.now }
        requires words { self.old.words ≡ sum self.old.level_lens.items }
        requires room { taken + self.old.words ≤ max_words }
        ensures trie { OnOk result (one_trie version key_len taken bytes.now (tries_of self.old)
            ≡ Ok (tries_of self.new)) }
        ensures fault { IfErr result
            (IsFaultOf (one_trie version key_len taken bytes.now (tries_of self.old))) }
        ensures inside { OnOk result (self.new.end ≤ length bytes.now) }
        ensures words { OnOk result (self.new.words ≡ sum self.new.level_lens.items) }
        ensures room { OnOk result (taken + self.new.words ≤ max_words) }
    {
        let kept = kept_groups(version, key_len, bytes, self.end)?;
        let depth = depth_of(key_len, kept);
        self.read_kept(alloc, version, taken, bytes, kept, depth)
    }

    /// Reads so many tries, of a table of which the rows take so many words.
    pub(crate) fn read(
        alloc: Global,
        version: Version,
        key_len: u32,
        taken: usize,
        bytes: &[u8],
        at: usize,
        count: u32,
    ) -> Result<Tries, LoadFault>
        requires key { IsTrue (is_key_len key_len) }
        requires inside { at ≤ length bytes.now }
        requires room { taken ≤ max_words }
        ensures tries { IfOk result
            (λ tries. tries_after version key_len taken bytes.now count (no_tries at)
            ≡ Ok (tries_of tries)) }
        ensures fault { IfErr result
            (IsFaultOf (tries_after version key_len taken bytes.now count (no_tries at))) }
        ensures inside { IfOk result (λ tries. tries.end ≤ length bytes.now) }
        ensures words { IfOk result (λ tries. tries.words ≡ sum tries.level_lens.items) }
        ensures room { IfOk result (λ tries. taken + tries.words ≤ max_words) }
    {
        let mut tries = Tries::new(alloc, at);
        for trie in 0..count {
            tries.read_one(alloc, version, key_len, taken, bytes)?;
        }
        Ok(tries)
    }
}
