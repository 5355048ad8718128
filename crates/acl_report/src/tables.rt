//! The lines of the tables: how large each is, and how many transitions all packets took.

ghost use Rattle.std.specs.Prelude.{◌≡◌, ◌≤◌, take};
ghost use Rattle.acl_report.specs.declared.line.TheConstants.{LINE_ROOM};
ghost use Rattle.acl_report.specs.Tables.{table_text, transitions_text};

use crate::line::{LINE_ROOM, append, append_count};
use field_defs::Family;

/// Writes the line of a table to the front of `into`, and gives its length with its LF.
///
/// The line names the family, and how many rules, tries and words of 64 bits its table has. It
/// takes no memory.
pub fn table_line(
    family: Family,
    rules: u32,
    tries: usize,
    words: u64,
    into: &mut [u8; LINE_ROOM],
) -> usize
    ensures within { result ≤ LINE_ROOM }
    ensures line { take result into.new ≡ table_text family rules tries words }
{
    let at = match family {
        Family::Ip4 => append_count(into, 0, b"ip4 rules ", u64::from(rules)),
        Family::Ip6 => append_count(into, 0, b"ip6 rules ", u64::from(rules)),
    };
    let at = append_count(into, at, b" tries ", tries as u64);
    let at = append_count(into, at, b" words ", words);
    append(into, at, b"\n")
}

/// Writes the line of the transitions to the front of `into`, and gives its length with its LF.
///
/// `taken` counts the transitions of all packets over all tries of their family. It takes no
/// memory.
pub fn transitions_line(taken: u64, into: &mut [u8; LINE_ROOM]) -> usize
    ensures within { result ≤ LINE_ROOM }
    ensures line { take result into.new ≡ transitions_text taken }
{
    let at = append_count(into, 0, b"transitions ", taken);
    append(into, at, b"\n")
}
