//! Read faults, write faults and faults of the message.

use crate::lists::{ROUTER, ROUTER_LINES, RULESET, RULESET_LINES, SAVED, SAVED_LINES};
use crate::runs::{DESK_PIECE, SINK_PIECE, expect, first};
use std::test::Fail;

/// The words of a run, its list, and the rule file.
type Run = (&'static [&'static str], &'static str, &'static str);

const RUNS: [Run; 3] = [
    (&["iptables", "list", "INPUT"], SAVED, SAVED_LINES),
    (&["cisco", "list", "EDGE"], ROUTER, ROUTER_LINES),
    (&["nft", "list", "in"], RULESET, RULESET_LINES),
];

/// How many calls move so many bytes.
fn calls(bytes: usize, piece: usize) -> u64 {
    bytes.div_ceil(piece.max(1)) as u64
}

/// What so many puts have taken of these bytes.
fn put_of(bytes: &[u8], puts: u64) -> &[u8] {
    first(bytes, puts.min(1000) as usize * SINK_PIECE)
}

#[test]
fn a_read_that_fails_prints_nothing(rt: HostRuntime) -> Result<(), Fail> {
    for (words, list, rules) in RUNS {
        // A call opens the file, some read it, and one finds its end.
        let all = calls(list.len(), DESK_PIECE).saturating_add(2);
        for read in 1..all.saturating_add(1) {
            let told: &[u8] = b"aclc-lists: list: read fault\n";
            let want = (7, b"" as &[u8], told, [1, 0, 0, 0]);
            expect(&rt, words, list.as_bytes(), [read, 0, 0], want)?;
        }
        let want = (0, rules.as_bytes(), b"" as &[u8], [0; 4]);
        expect(
            &rt,
            words,
            list.as_bytes(),
            [all.saturating_add(1), 0, 0],
            want,
        )?;
    }
    Ok(())
}

#[test]
fn a_file_that_isnt_there_is_a_read_fault(rt: HostRuntime) -> Result<(), Fail> {
    let told: &[u8] = b"aclc-lists: lists: read fault\n";
    let want = (7, b"" as &[u8], told, [0, 1, 0, 0]);
    expect(
        &rt,
        &["cisco", "lists", "EDGE"],
        ROUTER.as_bytes(),
        [0; 3],
        want,
    )?;
    Ok(())
}

#[test]
fn a_put_that_fails_leaves_a_first_part_of_the_rule_file(rt: HostRuntime) -> Result<(), Fail> {
    for (words, list, rules) in RUNS {
        let all = calls(rules.len(), SINK_PIECE);
        for put in 0..all {
            let printed = put_of(rules.as_bytes(), put);
            let told: &[u8] = b"aclc-lists: write fault\n";
            let want = (8, printed, told, [0, 0, 1, 0]);
            expect(
                &rt,
                words,
                list.as_bytes(),
                [0, put.saturating_add(1), 0],
                want,
            )?;
        }
        let want = (0, rules.as_bytes(), b"" as &[u8], [0; 4]);
        expect(
            &rt,
            words,
            list.as_bytes(),
            [0, all.saturating_add(1), 0],
            want,
        )?;
    }
    Ok(())
}

#[test]
fn a_message_that_fails_leaves_the_status(rt: HostRuntime) -> Result<(), Fail> {
    let told: &[u8] = b"aclc-lists: list: line 0: no such chain\n";
    let words: &[&str] = &["iptables", "list", "NONE"];
    for put in 0..calls(told.len(), SINK_PIECE) {
        let want = (3, b"" as &[u8], put_of(told, put), [0, 0, 0, 1]);
        expect(
            &rt,
            words,
            SAVED.as_bytes(),
            [0, 0, put.saturating_add(1)],
            want,
        )?;
    }
    Ok(())
}
