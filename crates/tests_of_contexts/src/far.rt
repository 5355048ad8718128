//! Calls of many keys over a table of more than a mebibyte, made by hand, in which every third walk
//! ends early.

ghost use Rattle.std.specs.Prelude.{◌≡◌, ◌<◌, ◌≤◌};

use flat_table::{Parts, Steps, Table};
use rule_set::Categories;
use scalar_walk::classify_scalar_marked;
use std::alloc::{AllocError, Global};
use std::marker::Brand;
use std::process::Abort;
use std::sync::ledger::{Blank, Ledger};
use std::test::Fail;

const NO_RULE: u64 = 0x8000_0000;

/// At most so many keys are asked for at once.
const MOST: usize = 200;

/// The words of three levels of full nodes: a protocol leads to its node, or is a match of no rule
/// if 3 divides it. That node leads by the first byte of the source to one of 256 more, and these
/// match if the sum of the first two bytes of the source is odd. The other two are never read.
fn three_levels(alloc: Global) -> Result<Vec<u64>, AllocError> {
    let mut words = Vec::with_capacity(alloc, 131_330)?;
    for protocol in 0..256u64 {
        let is_out = protocol % 3 == 0;
        words.push(if is_out {
            NO_RULE
        } else {
            256 + 256 * protocol
        })?;
    }
    for _ in 0..256u64 {
        for first in 0..256u64 {
            words.push(65_792 + 256 * first)?;
        }
    }
    for first in 0..256u64 {
        for second in 0..256u64 {
            words.push(NO_RULE + (first + second) % 2)?;
        }
    }
    words.extend_from_slice(&[NO_RULE, NO_RULE])?;
    Ok(words)
}

/// The table of one rule of userdata 7 with one such trie, or with two that are alike.
fn far(alloc: Global, two: bool) -> Result<Table, Fail> {
    let words = three_levels(alloc)?;
    let rows = [[0; 16], [0x1_0000_0007; 16]];
    let mut parts = Parts {
        key_len: 13,
        rules: 1,
        kept: Vec::from_slice(alloc, &[3])?,
        roots: Vec::from_slice(alloc, &[0])?,
        level_lens: Vec::from_slice(alloc, &[256, 65_536, 65_536, 1, 1])?,
        words,
        rows: Vec::from_slice(alloc, &rows)?,
    };
    if two {
        // The other trie has one node, which no key passes.
        parts.kept.push(1)?;
        parts.roots.push(0x2000_0000 + 131_330)?;
        parts.level_lens.push(1)?;
        parts.words.push(NO_RULE)?;
    }
    Ok(Table::from_parts(parts)?)
}

/// The verdicts and the marks of the keys in one category, and how many words their walks took; or
/// 0 where the keys don't fit.
fn classified<L: Ledger>(
    blank: Blank,
    table: &Table,
    keys: &[u8],
    out: &mut [u32],
    won: &mut [bool],
) -> u64
    requires name { blank.name ≡ L.name }
    requires parts { blank.parts ≡ L.parts }
    requires some { 0 < blank.parts }
{
    let mut steps = Steps::<L>::new(blank);
    let Some(cats) = Categories::new(1) else {
        return 0
    };
    let n = keys.len() / table.key_len();
    let whole = n <= 65_536 && keys.len() == n * table.key_len();
    if !whole || out.len() != n * cats.count() || won.len() != out.len() {
        return 0;
    }
    classify_scalar_marked(table, keys, cats, out, won, &mut steps)
}

/// Checks the first so many keys: key k is of protocol k, from an address whose first bytes are k
/// and k / 3.
fn check(rt: &impl Abort, table: &Table, n: usize, two: bool)
    requires { n ≤ MOST }
{
    let mut keys = [0xFFu8; 2600];
    for k in 0..MOST {
        keys[k * 13] = k as u8;
        keys[k * 13 + 1] = k as u8;
        keys[k * 13 + 2] = (k / 3) as u8;
    }
    let (mut out, mut won) = ([9u32; 200], [false; 200]);
    let (all, marks) = (&mut out[..n], &mut won[..n]);
    let taken = classified::<Brand>(Blank::new(1), table, &keys[..n * 13], all, marks);
    let early = n.div_ceil(3);
    assert!(rt; taken as usize == 3 * n - 2 * early + if two { n } else { 0 });
    for k in 0..MOST {
        let is_won = k < n && k % 3 != 0 && (k + k / 3) % 2 == 1;
        let verdict = if is_won { 7 } else { 0 };
        assert!(rt; won[k] == is_won && out[k] == if k < n { verdict } else { 9 });
    }
}

#[test]
fn ranks_close_as_walks_end(rt: HostRuntime) -> Result<(), Fail> {
    let alloc = rt.alloc();
    let (one, two) = (far(alloc, false)?, far(alloc, true)?);
    for n in 14..=MOST {
        check(&rt, &one, n, false);
        check(&rt, &two, n, true);
    }
    Ok(())
}
