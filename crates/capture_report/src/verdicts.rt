//! The walks of the keys of a batch, one family after the other.

ghost use Rattle.std.specs.Prelude.{◌≡◌, ◌+◌, ◌*◌, ◌≤◌, ◌++◌, [], All, length, map, take};
ghost use Rattle.std.specs.Prelude.{not, true};
ghost use Rattle.flat_table.specs.Batch.{LengthsFit, keys_in, batch_transitions, batch_verdicts};
ghost use Rattle.scalar_walk.specs.Rows.{batch_winners};
ghost use Rattle.capture_report.specs.Taken.{max_batch};
ghost use Rattle.capture_report.specs.Packet.{IsPacket};
ghost use Rattle.capture_report.specs.Batch.{is_of, keys_of, number_of, verdicts_of};
ghost use Rattle.capture_report.specs.Batch.{transitions_of_family, max_transitions, table_of};
ghost use Rattle.capture_report.specs.Batch.{HasMarks};
ghost use Rattle.capture_report.specs.declared.verdicts.TheConstants.{BATCH_KEYS, BATCH_VERDICTS};

use crate::batch::MAX_BATCH;
use crate::form::FormByTables;
use crate::packet::Packet;
use acl_report::MAX_VERDICTS;
use batch_walk::{classify_by, classify_marked};
use field_defs::Family;
use flat_table::{Steps, Table};
use flow_core::Scratch;
use header_extract::Class;
use std::sync::ledger::Ledger;
use table_sizes::IP6_KEY_LEN;

/// How many bytes the keys of a batch have at most.
pub const BATCH_KEYS: usize = MAX_BATCH * IP6_KEY_LEN;

/// How many verdicts there are on the packets of a batch at most.
pub const BATCH_VERDICTS: usize = MAX_BATCH * MAX_VERDICTS;

/// What the walks of the keys of a family came to.
#[derive(Clone, Copy)]
pub struct FamilyVerdicts {
    /// How many packets are of the family.
    pub packets: usize,
    /// How many verdicts were written.
    pub verdicts: usize,
    /// How many transitions the walks took.
    pub transitions: u64,
}

/// Walks the keys of the packets of a family through its table, and writes their verdicts to the
/// front of `verdicts`, those of one packet after those of another. Where the form asks for marks,
/// the same walk says which dashes are shown, in the same places of `dashes`.
///
/// There are at most 64 packets, and at most `most` are of the family: where that is 0, none is
/// looked at. `keys` has room for their keys, [`BATCH_KEYS`] bytes, and `scratch` has a row for
/// each, which are overwritten; `verdicts` and `dashes` have [`BATCH_VERDICTS`] elements. Whichever
/// walk the form asks for, the verdicts, the dashes and the transitions are the same. It takes no
/// memory.
pub fn walk_keys<L: Ledger>(
    form: &FormByTables<'_>,
    family: Family,
    packets: &[Packet],
    most: usize,
    keys: &mut [u8],
    scratch: &mut Scratch,
    verdicts: &mut [u32],
    dashes: &mut [bool],
    steps: &mut Steps<L>,
) -> FamilyVerdicts
    requires few { length packets.now ≤ max_batch }
    requires packets { All IsPacket packets.now }
    requires most { number_of family packets.now ≤ most }
    requires keys { BATCH_KEYS ≤ length keys.old }
    requires rows { max_batch ≤ length scratch.old }
    requires verdicts { length verdicts.old ≡ BATCH_VERDICTS }
    requires dashes { length dashes.old ≡ BATCH_VERDICTS }
    ensures packets { result.packets ≡ number_of family packets.now }
    ensures within { result.verdicts ≤ BATCH_VERDICTS }
    ensures verdicts { take result.verdicts verdicts.new ≡ verdicts_of family
        (table_of family form.now.tables) form.now.categories packets.now }
    ensures dashes { HasMarks family form.now packets.now (take result.verdicts dashes.new) }
    ensures transitions { result.transitions
        ≡ transitions_of_family family (table_of family form.now.tables) packets.now }
    ensures bound { result.transitions ≤ length packets.now * max_transitions }
    ensures steps { steps.new ≡ steps.old + result.transitions }
    ensures len { (length verdicts.new ≡ BATCH_VERDICTS) × (length dashes.new ≡ BATCH_VERDICTS) }
    ensures room { (length keys.new ≡ length keys.old) × (length scratch.new ≡ length scratch.old) }
{
    let (table, categories) = (form.table(family), form.categories());
    let own = gather_keys(family, packets, most, keys);
    let count = own.packets * categories.count();
    let (out, marks) = (&mut verdicts[..count], &mut dashes[..count]);
    FamilyVerdicts {
        packets: own.packets,
        verdicts: count,
        transitions: classify(form, table, &keys[..own.bytes], scratch, out, marks, steps),
    }
}

/// Walks the keys of a batch once, writes their verdicts, and where the form asks for marks beside
/// each whether no rule wins. It says how many transitions the walks took.
fn classify<L: Ledger>(
    form: &FormByTables<'_>,
    table: &Table,
    keys: &[u8],
    scratch: &mut Scratch,
    out: &mut [u32],
    marks: &mut [bool],
    steps: &mut Steps<L>,
) -> u64
    requires fits { LengthsFit table.now keys.now form.now.categories (length out.old) }
    requires rows { keys_in table.now keys.now ≤ length scratch.old }
    requires marks { length marks.old ≡ length out.old }
    ensures verdicts { out.new ≡ batch_verdicts table.now form.now.categories keys.now }
    ensures marks { form.now.marks ≡ true
        → marks.new ≡ map not (batch_winners table.now form.now.categories keys.now) }
    ensures len { length marks.new ≡ length marks.old }
    ensures taken { result ≡ batch_transitions table.now keys.now }
    ensures steps { steps.new ≡ steps.old + batch_transitions table.now keys.now }
    ensures rows { length scratch.new ≡ length scratch.old }
{
    let (walk, categories) = (form.walk(), form.categories());
    if !form.has_marks() {
        return classify_by(walk, table, keys, categories, scratch, out, steps);
    }
    let taken = classify_marked(walk, table, keys, categories, scratch, out, marks, steps);
    turn_over(marks);
    taken
}

/// Makes each mark its contrary.
fn turn_over(marks: &mut [bool])
    ensures { marks.new ≡ map not marks.old }
{
    for place in 0..marks.len() {
        marks[place] = !marks[place];
    }
}

/// How many packets of a family were gathered, and how many bytes their keys have.
#[derive(Clone, Copy)]
struct Gathered {
    packets: usize,
    bytes: usize,
}

/// Writes the keys of the packets of a family, of which there are so many at most, to the front of
/// `keys`, one after the other.
fn gather_keys(family: Family, packets: &[Packet], most: usize, keys: &mut [u8]) -> Gathered
    requires few { length packets.now ≤ max_batch }
    requires packets { All IsPacket packets.now }
    requires most { number_of family packets.now ≤ most }
    requires room { BATCH_KEYS ≤ length keys.old }
    ensures count { result.packets ≡ number_of family packets.now }
    ensures few { result.packets ≤ length packets.now }
    ensures within { result.bytes ≤ length keys.old }
    ensures keys { take result.bytes keys.new ≡ keys_of family packets.now }
    ensures len { length keys.new ≡ length keys.old }
{
    // In most captures all packets are of one family, and the other has nothing to gather.
    if most == 0 {
        return Gathered {
            packets: 0,
            bytes: 0,
        };
    }
    // Each family has a call of its own, in which the length of a key is settled.
    match family {
        Family::Ip4 => gather_each(Family::Ip4, packets, keys),
        Family::Ip6 => gather_each(Family::Ip6, packets, keys),
    }
}

/// The same, where the family is known when this is compiled.
#[inline(always)]
fn gather_each(family: Family, packets: &[Packet], keys: &mut [u8]) -> Gathered
    requires few { length packets.now ≤ max_batch }
    requires packets { All IsPacket packets.now }
    requires room { BATCH_KEYS ≤ length keys.old }
    ensures count { result.packets ≡ number_of family packets.now }
    ensures few { result.packets ≤ length packets.now }
    ensures within { result.bytes ≤ length keys.old }
    ensures keys { take result.bytes keys.new ≡ keys_of family packets.now }
    ensures len { length keys.new ≡ length keys.old }
{
    let (mut count, mut end) = (0, 0);
    for packet in packets {
        if is_of(family, packet.class()) {
            end = packet.put_key(keys, end);
            count += 1;
        }
    }
    Gathered {
        packets: count,
        bytes: end,
    }
}

/// Whether a frame holds a packet of the family.
fn is_of(family: Family, class: Class) -> bool
    ensures { result ≡ is_of family class }
{
    match family {
        Family::Ip4 => matches!(class, Class::Ip4),
        Family::Ip6 => matches!(class, Class::Ip6),
    }
}
