//! The lines of `bench`, each of two numbers.

ghost use Rattle.std.specs.Prelude.{◌≡◌, ◌+◌, ◌≤◌, ◌++◌, length, take};
ghost use Rattle.acl_report.specs.declared.line.TheConstants.{LINE_ROOM};
ghost use Rattle.bench_command.specs.Bench.{bench_text, pair_text};

use crate::tally::Tally;
use acl_report::{LINE_ROOM, append, append_number};

/// What was measured of a workload.
#[derive(Clone, Copy)]
pub struct Measured {
    /// How many rules and packets were drawn.
    pub rules: u32,
    pub packets: u32,
    /// What the rules say of the packets, by the plain filter.
    pub plain: Tally,
    /// What their table says.
    pub table: Tally,
    /// How many tries the table has.
    pub tries: usize,
    /// How many words of 64 bits it has.
    pub words: u64,
}

/// Writes the four lines to the front of `into`, and gives their length. It takes no memory.
pub fn bench_lines(measured: &Measured, into: &mut [u8; LINE_ROOM]) -> usize
    ensures within { result ≤ LINE_ROOM }
    ensures text { take result into.new ≡ bench_text measured.now }
{
    let rules = u64::from(measured.rules);
    let packets = u64::from(measured.packets);
    let tries = measured.tries as u64;
    let (plain, table) = (measured.plain, measured.table);
    let at = append_pair(into, 0, b"rules ", rules, b" packets ", packets);
    let at = append_pair(into, at, b"plain hits ", plain.hits, b" sum ", plain.sum);
    let at = append_pair(into, at, b"table hits ", table.hits, b" sum ", table.sum);
    append_pair(into, at, b"tries ", tries, b" words ", measured.words)
}

/// Writes a line of two numbers, each after its label, at the place `at`, and gives the place
/// after it.
fn append_pair(
    into: &mut [u8; LINE_ROOM],
    at: usize,
    first_label: &[u8],
    first: u64,
    second_label: &[u8],
    second: u64,
) -> usize
    requires { at + length first_label.now + length second_label.now + 41 ≤ LINE_ROOM }
    ensures end { result ≤ at + length first_label.now + length second_label.now + 41 }
    ensures line { take result into.new ≡ take at into.old
        ++ pair_text first_label.now first second_label.now second }
{
    let at = append(into, at, first_label);
    let at = append_number(into, at, first);
    let at = append(into, at, second_label);
    let at = append_number(into, at, second);
    append(into, at, b"\n")
}
