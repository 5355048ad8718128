//! Tables made by hand, walked and classified.

ghost use Rattle.std.specs.Prelude.{◌≡◌, ◌<◌};

use flat_table::{Parts, Steps, Table};
use rule_set::Categories;
use scalar_walk::{classify_scalar, winners};
use std::alloc::{AllocError, Global};
use std::marker::Brand;
use std::process::Abort;
use std::sync::ledger::{Blank, Ledger};
use std::test::Fail;

const NO_RULE: u64 = 0x8000_0000;

const RULE: u64 = 0x8000_0001;

/// The table of one rule of userdata 1 and one trie.
fn table(
    alloc: Global,
    kept: u128,
    root: u64,
    level_lens: &[u32],
    words: &[u64],
) -> Result<Table, Fail> {
    let mut parts = Parts {
        key_len: 13,
        rules: 1,
        kept: Vec::new(alloc),
        roots: Vec::new(alloc),
        level_lens: Vec::new(alloc),
        words: Vec::new(alloc),
        rows: Vec::new(alloc),
    };
    add_trie(&mut parts, kept, root, level_lens, words)?;
    Ok(Table::from_parts(parts)?)
}

/// Adds a trie and the rows of no rule and of the rule.
fn add_trie(
    parts: &mut Parts,
    kept: u128,
    root: u64,
    level_lens: &[u32],
    words: &[u64],
) -> Result<(), AllocError> {
    parts.kept.extend_from_slice(&[kept])?;
    parts.roots.extend_from_slice(&[root])?;
    parts.level_lens.extend_from_slice(level_lens)?;
    parts.words.extend_from_slice(words)?;
    parts
        .rows
        .extend_from_slice(&[[0; 16], [0x1_0000_0001; 16]])
}

/// Checks the table of one trie.
fn check(
    rt: &impl Abort,
    alloc: Global,
    (kept, root): (u128, u64),
    level_lens: &[u32],
    words: &[u64],
    (expected, taken): ([u32; 5], u64),
) -> Result<(), Fail> {
    let table = table(alloc, kept, root, level_lens, words)?;
    expect(rt, &table, &expected, taken);
    Ok(())
}

/// The verdicts of the keys in category 0 and how many words their walks took, or nothing where the
/// keys don't fit.
fn classified<L: Ledger>(blank: Blank, table: &Table, keys: &[u8], out: &mut [u32]) -> u64
    requires name { blank.name ≡ L.name }
    requires parts { blank.parts ≡ L.parts }
    requires some { 0 < blank.parts }
{
    let mut steps = Steps::<L>::new(blank);
    let Some(cats) = Categories::new(1) else {
        return 0;
    };
    let n = keys.len() / table.key_len();
    if n > 65_536 || keys.len() != n * table.key_len() || out.len() != n * cats.count() {
        return 0;
    }
    classify_scalar(table, keys, cats, out, &mut steps)
}

/// Checks the verdicts of five keys of protocol, source address, destination port, and how many
/// words they take.
fn expect(rt: &impl Abort, table: &Table, expected: &[u32; 5], taken: u64) {
    let keys = [
        6, 10, 0, 0, 1, 5, 6, 7, 8, 0, 9, 0, 10, 6, 11, 0, 0, 1, 5, 6, 7, 8, 0, 9, 0, 10, 17, 10,
        0, 0, 1, 5, 6, 7, 8, 0, 9, 3, 255, 17, 10, 0, 0, 1, 5, 6, 7, 8, 0, 9, 4, 0, 17, 10, 0, 0,
        1, 5, 6, 7, 8, 0, 9, 255, 255,
    ];
    let mut out = [9u32; 5];
    assert!(rt; classified::<Brand>(Blank::new(1), table, keys.as_slice(), &mut out) == taken);
    assert!(rt; out == *expected);
}

#[test]
fn runs_of_bytes_are_walked(rt: HostRuntime) -> Result<(), Fail> {
    let alloc = rt.alloc();
    // Every key, by a node of one word.
    check(&rt, alloc, (1, 0x2000_0000), &[1], &[RULE], ([1; 5], 5))?;
    // From 10.0.0.0/8, by runs of the bytes up to 9, of 10, and from 11 on.
    let source = [
        NO_RULE,
        0x2000_0005,
        NO_RULE,
        NO_RULE,
        NO_RULE,
        0x2000_0006,
        0x2000_0007,
        RULE,
    ];
    let root = 0xFFFF_0A09_6000_0000;
    let want = ([1, 0, 1, 1, 1], 17);
    check(&rt, alloc, (2, root), &[5, 1, 1, 1], &source, want)?;
    // To ports from 1024 on, by runs of the high bytes up to 3, and from 4 on.
    let port = [
        0x2000_0001,
        0xFFFF_FF03_6000_0002,
        NO_RULE,
        0x2000_0007,
        NO_RULE,
        NO_RULE,
        NO_RULE,
        RULE,
    ];
    let want = ([0, 0, 0, 1, 1], 17);
    check(&rt, alloc, (8, 0x2000_0000), &[1, 1, 5, 1], &port, want)
}

#[test]
fn a_word_for_each_byte_is_walked(rt: HostRuntime) -> Result<(), Fail> {
    let alloc = rt.alloc();
    let bits = odd_bytes(alloc)?;
    let odd = table(alloc, 1, 0, &[256], &bits)?;
    expect(&rt, &odd, &[0, 0, 1, 1, 1], 5);
    wins_nowhere(&rt, &odd);
    Ok(())
}

/// The words of a node that an odd protocol passes, one for each byte.
fn odd_bytes(alloc: Global) -> Result<Vec<u64>, AllocError> {
    let mut bits = Vec::new(alloc);
    for _ in 0..128 {
        bits.extend_from_slice(&[NO_RULE, RULE])?;
    }
    Ok(bits)
}

/// No category of a packet of protocol 6 has a winner.
fn wins_nowhere(rt: &impl Abort, table: &Table) {
    let mut won = [false; 16];
    let key = [6, 10, 0, 0, 1, 5, 6, 7, 8, 0, 9, 0, 10];
    assert!(rt; table.key_len() == key.len());
    winners(table, &key, &mut won);
    assert!(rt; won == [false; 16]);
}
