//! two rules and three packets → the userdata that decides each, printed
//!
//! The smallest program over the crates: it makes a context, adds rules, builds its table, and
//! classifies keys. What is proved of each call stands in its contract.
#![tactic(auto)]

ghost use Rattle.std.specs.Prelude.{◌≡◌, ◌<◌};

use acl_context::{AclContext, AddFault, BuildFault, NotBuilt, Scratch, Walk};
use field_defs::{FieldValue, ip4_layout};
use flat_table::Steps;
use rule_set::{Categories, Rule, RuleTag};
use std::alloc::{AllocError, Global};
use std::marker::Brand;
use std::sync::ledger::{Blank, Ledger};
use thiserror::Error;

/// How many words of 64 bits the table may take.
const BUDGET: u64 = 2_097_152;

/// The keys of three packets: protocol, source, destination and both ports, in network order.
const KEYS: [u8; 39] = [
    6, 10, 0, 0, 1, 192, 0, 2, 1, 156, 64, 0, 80, // TCP to port 80
    17, 10, 0, 0, 1, 192, 0, 2, 1, 156, 64, 0, 53, // UDP to port 53
    6, 192, 0, 2, 9, 192, 0, 2, 1, 156, 64, 0, 80, // TCP from elsewhere
];

/// Why there is no table.
#[derive(Debug, Drop, Error)]
enum Refused {
    #[error("the rules are refused: {0}")]
    Rules(#[from] AddFault),
    #[error("the table is refused: {0}")]
    Table(#[from] BuildFault),
    #[error("out of memory")]
    Memory(#[from] AllocError),
}

/// A rule of all packets from 10.0.0.0/8 whose protocol agrees with this one in the bits of the
/// mask.
fn from_ten(protocol: u64, mask: u64, priority: i32, userdata: u32) -> Rule<5> {
    let port = FieldValue::Range {
        low: 0,
        high: 65_535,
    };
    Rule {
        tag: RuleTag {
            category_mask: 1,
            priority,
            userdata,
        },
        fields: [
            FieldValue::Bitmask {
                value: protocol,
                mask,
            },
            FieldValue::Mask {
                value: 0x0A00_0000,
                bits: 8,
            },
            FieldValue::Mask { value: 0, bits: 0 },
            port,
            port,
        ],
    }
}

/// A context with the table of two rules: any protocol, and UDP with a greater priority.
fn two_rules(alloc: Global) -> Result<AclContext, Refused> {
    let mut context = AclContext::create(alloc, ip4_layout(), 1_000);
    context.add_rules(&[from_ten(0, 0, 1, 7), from_ten(17, 255, 2, 8)])?;
    context.build(BUDGET)?;
    Ok(context)
}

/// The userdata that decides each of the three packets in the first category, or nothing where
/// there is no table, or its keys have another length. The keys are walked at once, by lanes.
///
/// `blank` is what the counter of the transitions is made of, which exists in proofs alone.
fn verdicts<L: Ledger>(
    blank: Blank,
    context: &AclContext,
    scratch: &mut Scratch,
) -> Option<[u32; 3]>
    requires name { blank.name ≡ L.name }
    requires parts { blank.parts ≡ L.parts }
    requires some { 0 < blank.parts }
{
    let mut steps = Steps::<L>::new(blank);
    let mut out = [0u32; 3];
    let first = Categories::new(1)?;
    if context.rules().layout().key_len() != 13 || scratch.room() < 3 {
        return None;
    }
    match context.classify(&KEYS, first, Walk::Lanes, scratch, &mut out, &mut steps) {
        Ok(_) => Some(out),
        Err(NotBuilt) => None,
    }
}

/// What the context of the two rules says of the packets.
fn answers(alloc: Global) -> Result<Option<[u32; 3]>, Refused> {
    let context = two_rules(alloc)?;
    // A row for each key, which the lanes write to.
    let mut scratch = Scratch::new(alloc, 3)?;
    Ok(verdicts::<Brand>(Blank::new(1), &context, &mut scratch))
}

fn main(rt: HostRuntime) -> std::io::Result<()> {
    match answers(rt.alloc()) {
        Ok(answers) => println!(rt; "{answers:?}"),
        Err(refused) => println!(rt; "{refused}"),
    }
}
