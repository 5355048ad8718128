//! Calls of 1 to 17 keys over tables made by hand: verdicts, marks and words.

ghost use Rattle.std.specs.Prelude.{◌≡◌, ◌<◌, ◌≤◌};

use flat_table::{Parts, Steps, Table};
use flow_core::Scratch;
use lane_walk::classify_lanes_marked;
use rule_set::Categories;
use scalar_walk::classify_scalar_marked;
use std::alloc::{AllocError, Global};
use std::marker::Brand;
use std::process::Abort;
use std::sync::ledger::{Blank, Ledger};
use std::test::Fail;

const NO_RULE: u64 = 0x8000_0000;

/// The words of a node with one for each protocol: it matches those that a number divides with this
/// rest, by the row.
fn every(alloc: Global, by: u8, rest: u8, row: u64) -> Result<Vec<u64>, AllocError>
    requires by { 0 < by }
    requires row { row ≤ 2 }
{
    let mut words = Vec::new(alloc);
    for protocol in 0..=255u8 {
        words.push(if protocol % by == rest {
            NO_RULE + row
        } else {
            NO_RULE
        })?;
    }
    Ok(words)
}

/// The table of two rules of 13 bytes that look at the protocol alone, each with a trie of its own:
/// one for odd numbers with userdata 1, and one of greater rank for those of rest 3 by 4 with
/// userdata 0.
fn two_tries(alloc: Global) -> Result<Table, Fail> {
    let mut words = every(alloc, 2, 1, 1)?;
    words.extend_from_slice(&every(alloc, 4, 3, 2)?)?;
    let rows = [[0; 16], [0x1_0000_0001; 16], [0x2_0000_0000; 16]];
    Ok(Table::from_parts(Parts {
        key_len: 13,
        rules: 2,
        kept: Vec::from_slice(alloc, &[1, 1])?,
        roots: Vec::from_slice(alloc, &[0, 256])?,
        level_lens: Vec::from_slice(alloc, &[256, 256])?,
        words,
        rows: Vec::from_slice(alloc, &rows)?,
    })?)
}

/// The table of the first of these rules alone.
fn one_trie(alloc: Global) -> Result<Table, Fail> {
    Ok(Table::from_parts(Parts {
        key_len: 13,
        rules: 1,
        kept: Vec::from_slice(alloc, &[1])?,
        roots: Vec::from_slice(alloc, &[0])?,
        level_lens: Vec::from_slice(alloc, &[256])?,
        words: every(alloc, 2, 1, 1)?,
        rows: Vec::from_slice(alloc, &[[0; 16], [0x1_0000_0001; 16]])?,
    })?)
}

/// The verdicts and the marks of the keys in so many categories by the scalar walk, or by lanes,
/// and how many words their walks took; or 0 where the keys don't fit.
fn marked<L: Ledger>(
    blank: Blank,
    table: &Table,
    keys: &[u8],
    categories: u32,
    lanes: Option<&mut Scratch>,
    out: &mut [u32],
    won: &mut [bool],
) -> u64
    requires name { blank.name ≡ L.name }
    requires parts { blank.parts ≡ L.parts }
    requires some { 0 < blank.parts }
{
    let mut steps = Steps::<L>::new(blank);
    let Some(cats) = Categories::new(categories) else {
        return 0
    };
    let n = keys.len() / table.key_len();
    let whole = n <= 65_536 && keys.len() == n * table.key_len();
    if !whole || out.len() != n * cats.count() || won.len() != out.len() {
        return 0;
    }
    match lanes {
        Some(scratch) => {
            if n > scratch.room() {
                return 0;
            }
            classify_lanes_marked::<8, L>(table, keys, cats, scratch, out, won, &mut steps).taken
        }
        None => classify_scalar_marked(table, keys, cats, out, won, &mut steps),
    }
}

/// What is expected of the key of a protocol: its verdict, and whether a rule wins.
fn expected(two: bool, protocol: usize) -> (u32, bool) {
    if protocol % 2 == 0 {
        (0, false)
    } else if two && protocol % 4 == 3 {
        (0, true)
    } else {
        (1, true)
    }
}

/// How the keys are asked: by how many tries, by lanes or not, and in 16 categories or in one.
#[derive(Clone, Copy)]
struct Asked {
    two: bool,
    lanes: bool,
    wide: bool,
}

/// Checks the first so many of seventeen keys, whose protocols are 0 to 16.
fn check(rt: &impl Abort, table: &Table, scratch: &mut Scratch, n: usize, asked: Asked)
    requires { n ≤ 17 }
{
    let mut keys = [0xFFu8; 221];
    for k in 0..17usize {
        keys[k * 13] = k as u8;
    }
    let (mut out, mut won) = ([9u32; 272], [false; 272]);
    let (all, categories) = if asked.wide { (n * 16, 16) } else { (n, 1) };
    let lanes = if asked.lanes { Some(scratch) } else { None };
    let taken = marked::<Brand>(
        Blank::new(1),
        table,
        &keys[..n * 13],
        categories,
        lanes,
        &mut out[..all],
        &mut won[..all],
    );
    assert!(rt; taken == n as u64 * if asked.two { 2 } else { 1 });
    for place in 0..272usize {
        let protocol = if asked.wide { place / 16 } else { place };
        let want = if place < all {
            expected(asked.two, protocol)
        } else {
            (9, false)
        };
        assert!(rt; (out[place], won[place]) == want);
    }
}

/// Checks so many of the keys in each way.
fn check_all(rt: &impl Abort, alloc: Global, n: usize) -> Result<(), Fail>
    requires { n ≤ 17 }
{
    let mut scratch = Scratch::new(alloc, 17)?;
    let (one, two) = (one_trie(alloc)?, two_tries(alloc)?);
    for way in 0..8u32 {
        let asked = Asked {
            two: way & 1 != 0,
            lanes: way & 2 != 0,
            wide: way & 4 != 0,
        };
        let table = if asked.two { &two } else { &one };
        check(rt, table, &mut scratch, n, asked);
    }
    Ok(())
}

#[test]
fn one_to_seventeen_keys_are_walked_each_once(rt: HostRuntime) -> Result<(), Fail> {
    let alloc = rt.alloc();
    for n in 0..=17usize {
        check_all(&rt, alloc, n)?;
    }
    Ok(())
}
