//! Batches walked by lanes: turn by turn, and to their end.

ghost use Rattle.std.specs.Prelude.{◌≡◌, ◌<◌};

use acl_context::AclContext;
use field_defs::{FieldValue, ip4_layout};
use flat_table::{Parts, Steps, Table};
use flow_core::Scratch;
use lane_walk::{Flown, LaneFlows, classify_lanes};
use rule_set::{Categories, Rule, RuleTag};
use std::alloc::{AllocError, Global};
use std::marker::Brand;
use std::process::Abort;
use std::sync::ledger::{Blank, Ledger};
use std::test::Fail;

/// A context of one rule: UDP from 192.168.1.0/24 to port 1234 of 192.168.2.31.
fn of_one_rule(alloc: Global) -> Result<AclContext, Fail> {
    let rule = Rule {
        tag: RuleTag {
            category_mask: 1,
            priority: 1,
            userdata: 1,
        },
        fields: [
            FieldValue::Bitmask {
                value: 17,
                mask: 0xFF,
            },
            FieldValue::Mask {
                value: 0xC0A8_0100,
                bits: 24,
            },
            FieldValue::Mask {
                value: 0xC0A8_021F,
                bits: 32,
            },
            FieldValue::Range {
                low: 0,
                high: 65_535,
            },
            FieldValue::Range {
                low: 1234,
                high: 1234,
            },
        ],
    };
    let mut context = AclContext::create(alloc, ip4_layout(), 1);
    context.add_rules(&[rule])?;
    context.build(1000)?;
    Ok(context)
}

/// The keys of so many UDP packets from 192.168.1.7 to 192.168.2.31, to the ports from 1227 on.
fn to_ports(alloc: Global, n: u8) -> Result<Vec<u8>, AllocError> {
    let mut keys = Vec::new(alloc);
    for k in 0..n {
        let port = 0xCBu8.wrapping_add(k);
        keys.extend_from_slice(&[17, 192, 168, 1, 7, 192, 168, 2, 31, 0, 53, 4, port])?;
    }
    Ok(keys)
}

/// What fourteen turns of four lanes take, and whether the machine is done after each; or None
/// where the lengths don't fit.
fn fourteen_turns(
    table: &Table,
    keys: &[u8],
    scratch: &mut Scratch,
) -> Option<([u32; 14], [bool; 14])> {
    let n = keys.len() / table.key_len();
    if n > 65_536 || n > scratch.room() || keys.len() != n * table.key_len() {
        return None;
    }
    let mut lanes = LaneFlows::<4>::begin(table, keys, scratch);
    let mut busy = [0u32; 14];
    let mut done = [false; 14];
    for turn in 0..14usize {
        busy[turn] = lanes.turn(table, keys, scratch);
        done[turn] = lanes.done();
    }
    Some((busy, done))
}

#[test]
fn two_walks_of_thirteen_words_take_fourteen_turns(rt: HostRuntime) -> Result<(), Fail> {
    let alloc = rt.alloc();
    let context = of_one_rule(alloc)?;
    let keys = to_ports(alloc, 2)?;
    let mut scratch = Scratch::new(alloc, 2)?;
    let turns = match context.table() {
        Some(table) => fourteen_turns(table, &keys, &mut scratch),
        None => None,
    };
    let mut busy = [2; 14];
    busy[0] = 0;
    let mut done = [false; 14];
    done[13] = true;
    assert!(rt; turns == Some((busy, done)));
    Ok(())
}

/// A table whose walks take so many words, and whose one rule matches every key.
fn chain(alloc: Global, kept: u128, words: &[u64], lens: &[u32]) -> Result<Table, Fail> {
    let parts = Parts {
        key_len: 13,
        rules: 1,
        kept: Vec::from_slice(alloc, &[kept])?,
        roots: Vec::from_slice(alloc, &[0x2000_0000])?,
        level_lens: Vec::from_slice(alloc, lens)?,
        words: Vec::from_slice(alloc, words)?,
        rows: Vec::from_slice(alloc, &[[0; 16], [0x1_0000_0001; 16]])?,
    };
    Ok(Table::from_parts(parts)?)
}

/// How many lanes there are.
#[derive(Clone, Copy)]
enum Width {
    Four,
    Eight,
    Sixteen,
}

/// What the walks of four keys by so many lanes took, and their verdicts; or None where the lengths
/// don't fit.
fn flown<L: Ledger>(
    blank: Blank,
    width: Width,
    table: &Table,
    keys: &[u8],
    scratch: &mut Scratch,
) -> Option<(Flown, [u32; 4])>
    requires name { blank.name ≡ L.name }
    requires parts { blank.parts ≡ L.parts }
    requires some { 0 < blank.parts }
{
    let mut steps = Steps::<L>::new(blank);
    let cats = Categories::new(1)?;
    let mut out = [9u32; 4];
    let n = keys.len() / table.key_len();
    if n != 4 || n > scratch.room() || keys.len() != n * table.key_len() || cats.count() != 1 {
        return None;
    }
    let flown = match width {
        Width::Four => classify_lanes::<4, L>(table, keys, cats, scratch, &mut out, &mut steps),
        Width::Eight => classify_lanes::<8, L>(table, keys, cats, scratch, &mut out, &mut steps),
        Width::Sixteen => classify_lanes::<16, L>(table, keys, cats, scratch, &mut out, &mut steps),
    };
    Some((flown, out))
}

/// The same, with a counter that nobody sees.
fn flown_by(
    width: Width,
    table: &Table,
    keys: &[u8],
    scratch: &mut Scratch,
) -> Option<(Flown, [u32; 4])> {
    let blank = Blank::new(1);
    flown::<Brand>(blank, width, table, keys, scratch)
}

/// The walks of four keys take so many words, and so many turns by 4, 8 and 16 lanes. The first key
/// is that of 10.0.0.1, the second that of 11.0.0.1, and so on by turns.
fn expect(
    rt: &impl Abort,
    alloc: Global,
    table: &Table,
    taken: u64,
    turns: [u64; 3],
    won: [u32; 4],
) -> Result<(), Fail> {
    let keys = [
        6, 10, 0, 0, 1, 5, 6, 7, 8, 0, 9, 0, 10, 17, 11, 0, 0, 1, 5, 6, 7, 8, 0, 9, 3, 255, 6, 10,
        0, 0, 1, 5, 6, 7, 8, 0, 9, 0, 10, 17, 11, 0, 0, 1, 5, 6, 7, 8, 0, 9, 3, 255,
    ];
    let mut scratch = Scratch::new(alloc, 4)?;
    let found = [
        flown_by(Width::Four, table, &keys, &mut scratch),
        flown_by(Width::Eight, table, &keys, &mut scratch),
        flown_by(Width::Sixteen, table, &keys, &mut scratch),
    ];
    let [four, eight, sixteen] = turns;
    let wanted = [
        Some((Flown { taken, turns: four }, won)),
        Some((
            Flown {
                taken,
                turns: eight,
            },
            won,
        )),
        Some((
            Flown {
                taken,
                turns: sixteen,
            },
            won,
        )),
    ];
    assert!(rt; found == wanted);
    Ok(())
}

#[test]
fn four_keys_take_as_many_turns_as_one(rt: HostRuntime) -> Result<(), Fail> {
    let alloc = rt.alloc();
    let one = chain(alloc, 1, &[0x8000_0001], &[1])?;
    expect(&rt, alloc, &one, 4, [2, 2, 2], [1; 4])?;
    let words = [
        0x2000_0001,
        0x2000_0002,
        0x2000_0003,
        0x2000_0004,
        0x2000_0005,
        0x2000_0006,
        0x2000_0007,
        0x2000_0008,
        0x2000_0009,
        0x2000_000A,
        0x2000_000B,
        0x2000_000C,
        0x8000_0001,
    ];
    let all = chain(alloc, 15, &words, &[1; 13])?;
    expect(&rt, alloc, &all, 52, [14, 14, 14], [1; 4])
}

#[test]
fn a_lane_that_ends_takes_the_next_walk(rt: HostRuntime) -> Result<(), Fail> {
    let alloc = rt.alloc();
    // Of a rule of userdata 5 that every key matches, and of a rule of greater rank and userdata 7
    // on the source address 10.0.0.0/8.
    let words = [
        0x8000_0001,
        0x8000_0000,
        0x2000_0006,
        0x8000_0000,
        0x8000_0000,
        0x8000_0000,
        0x2000_0007,
        0x2000_0008,
        0x8000_0002,
    ];
    let parts = Parts {
        key_len: 13,
        rules: 2,
        kept: Vec::from_slice(alloc, &[1, 2])?,
        roots: Vec::from_slice(alloc, &[0x2000_0000, 0xFFFF_0A09_6000_0001])?,
        level_lens: Vec::from_slice(alloc, &[1, 5, 1, 1, 1])?,
        words: Vec::from_slice(alloc, &words)?,
        rows: Vec::from_slice(alloc, &[[0; 16], [0x1_0000_0005; 16], [0x2_0000_0007; 16]])?,
    };
    let two = Table::from_parts(parts)?;
    // Of the walks of the second trie those of the first and third key take four words.
    expect(&rt, alloc, &two, 14, [7, 5, 5], [7, 5, 7, 5])
}
