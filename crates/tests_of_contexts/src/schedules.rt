//! Tables made by hand, walked by lists of slots.

ghost use Rattle.std.specs.Prelude.{◌<◌, ◌≤◌, length};
ghost use Rattle.flow_core.specs.Standing.{most_slots};

use flat_table::{Parts, Table};
use flow_core::{Scratch, run_schedule};
use rule_set::Categories;
use std::alloc::Global;
use std::process::Abort;
use std::test::Fail;

/// The first key has the source address 10.0.0.1, the second 11.0.0.1.
const KEYS: [u8; 26] = [
    6, 10, 0, 0, 1, 5, 6, 7, 8, 0, 9, 0, 10, 17, 11, 0, 0, 1, 5, 6, 7, 8, 0, 9, 3, 255,
];

/// The table of a rule that every key matches: one node, at the first byte.
fn wild_table(alloc: Global) -> Result<Table, Fail> {
    let parts = Parts {
        key_len: 13,
        rules: 1,
        kept: Vec::from_slice(alloc, &[1])?,
        roots: Vec::from_slice(alloc, &[0x2000_0000])?,
        level_lens: Vec::from_slice(alloc, &[1])?,
        words: Vec::from_slice(alloc, &[0x8000_0001])?,
        rows: Vec::from_slice(alloc, &[[0; 16], [0x1_0000_0001; 16]])?,
    };
    Ok(Table::from_parts(parts)?)
}

/// A table of two tries: of a rule of userdata 5 that every key matches, and of a rule of greater
/// rank and userdata 7 on the source address 10.0.0.0/8.
fn two_tries(alloc: Global) -> Result<Table, Fail> {
    let words = [
        0x8000_0001,
        0x8000_0000,
        0x2000_0006,
        0x8000_0000,
        0x8000_0000,
        0x8000_0000,
        0x2000_0007,
        0x2000_0008,
        0x8000_0002,
    ];
    let parts = Parts {
        key_len: 13,
        rules: 2,
        kept: Vec::from_slice(alloc, &[1, 2])?,
        roots: Vec::from_slice(alloc, &[0x2000_0000, 0xFFFF_0A09_6000_0001])?,
        level_lens: Vec::from_slice(alloc, &[1, 5, 1, 1, 1])?,
        words: Vec::from_slice(alloc, &words)?,
        rows: Vec::from_slice(alloc, &[[0; 16], [0x1_0000_0005; 16], [0x2_0000_0007; 16]])?,
    };
    Ok(Table::from_parts(parts)?)
}

/// Whether the machine is done by the slots, with the verdicts in category 0; or None where the
/// lengths don't fit, or some entry is no slot.
fn scheduled<const W: usize>(
    table: &Table,
    keys: &[u8],
    slots: &[u8],
    scratch: &mut Scratch,
    out: &mut [u32],
) -> Option<bool>
    requires some { 0 < W }
    requires few { W ≤ most_slots }
{
    let cats = Categories::new(1)?;
    let n = keys.len() / table.key_len();
    if n > 65_536 || n > scratch.room() || keys.len() != n * table.key_len() || out.len() != n {
        return None;
    }
    for slot in slots {
        if usize::from(*slot) >= W {
            return None;
        }
    }
    Some(run_schedule::<W>(table, keys, cats, slots, scratch, out))
}

/// Checks whether the machine is done by the slots, and what the verdicts of the first keys are
/// then, of which there are as many as verdicts.
fn expect<const W: usize>(
    rt: &impl Abort,
    table: &Table,
    scratch: &mut Scratch,
    slots: &[u8],
    done: bool,
    verdicts: &[u32],
)
    requires some { 0 < W }
    requires few { W ≤ most_slots }
    requires keys { length verdicts.now ≤ 2 }
{
    let mut out = [9u32; 2];
    let out = &mut out[..verdicts.len()];
    let keys = &KEYS[..13 * verdicts.len()];
    assert!(rt; scheduled::<W>(table, keys, slots, scratch, out) == Some(done));
    assert!(rt; &*out == verdicts);
}

#[test]
fn one_job_takes_two_steps_of_any_slot(rt: HostRuntime) -> Result<(), Fail> {
    let alloc = rt.alloc();
    let wild = wild_table(alloc)?;
    let mut scratch = Scratch::new(alloc, 1)?;
    expect::<4>(&rt, &wild, &mut scratch, &[0], false, &[9]);
    expect::<4>(&rt, &wild, &mut scratch, &[0, 0], true, &[1]);
    expect::<4>(&rt, &wild, &mut scratch, &[1, 0, 1], true, &[1]);
    Ok(())
}

#[test]
fn any_number_of_slots_gives_the_same_verdicts(rt: HostRuntime) -> Result<(), Fail> {
    let alloc = rt.alloc();
    let two = two_tries(alloc)?;
    let mut scratch = Scratch::new(alloc, 2)?;
    // Of the four jobs the second takes five steps, and the others take two.
    expect::<1>(&rt, &two, &mut scratch, &[0; 10], false, &[9, 9]);
    expect::<1>(&rt, &two, &mut scratch, &[0; 11], true, &[7, 5]);
    let four = [3, 2, 1, 0, 0, 1, 2, 3, 2, 2, 2];
    expect::<4>(&rt, &two, &mut scratch, &four, true, &[7, 5]);
    let sixteen = [15, 9, 0, 1, 15, 9, 0, 1, 9, 9, 9];
    expect::<16>(&rt, &two, &mut scratch, &sixteen, true, &[7, 5]);
    Ok(())
}
