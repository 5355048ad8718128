//! The keys of a workload, and what its rules say of them.

ghost use Rattle.std.specs.Prelude.{◌≡◌, ◌+◌, ◌*◌, ◌^◌, ◌<◌, ◌≤◌, length, IfOk};
ghost use Rattle.std.specs.List.{concat};
ghost use Rattle.field_defs.specs.Layout.{ip4_fields, key_len_of};
ghost use Rattle.table_sizes.specs.Sizes.{max_keys};
ghost use Rattle.workload_gen.specs.Workload.{keys_of};
ghost use Rattle.bench_command.specs.Tally.{HasRoom, tally_of, with_verdicts};
ghost use Rattle.bench_command.specs.Bench.{verdicts_on_key, verdicts_on_keys};

use crate::tally::Tally;
use rule_set::{Categories, RuleSet, plain_verdict};
use std::alloc::{AllocError, Global};
use workload_gen::{KEY_LEN, Workload};

/// Keys that were drawn.
#[derive(Drop)]
pub struct Drawn {
    /// The bytes of the keys, one key after the other.
    pub keys: Vec<u8>,
    /// What the rules say of them, by the plain filter.
    pub plain: Tally,
}

/// The next keys of a workload, at most 65,536. The rules answer for each of them in all of the
/// categories. It takes the memory for the keys.
pub fn draw_keys(
    alloc: Global,
    workload: &mut Workload,
    packets: u32,
    cats: Categories,
) -> Result<Drawn, AllocError>
    requires { packets ≤ max_keys }
    ensures keys { IfOk result (λ drawn. drawn.keys.items
        ≡ concat (keys_of workload.old.rules workload.old.generator packets)) }
    ensures plain { IfOk result (λ drawn. drawn.plain ≡ tally_of (verdicts_on_keys
        (record { layout = ip4_fields; rules = workload.old.rules }) cats.count
        (keys_of workload.old.rules workload.old.generator packets))) }
{
    let mut keys = Vec::with_capacity(alloc, packets as usize * KEY_LEN)?;
    let mut plain = Tally::default();
    let mut key = [0; KEY_LEN];
    for _ in 0..packets {
        workload.next_key(&mut key);
        keys.extend_from_slice(&key)?;
        add_plain(&mut plain, workload.rules(), &key, cats);
    }
    Ok(Drawn { keys, plain })
}

/// Adds what the rules say of a key in each category.
fn add_plain(tally: &mut Tally, rules: &RuleSet, key: &[u8], cats: Categories)
    requires key { length key.now ≡ key_len_of rules.now.layout }
    requires room { HasRoom tally.old 16 }
    ensures tally { tally.new
        ≡ with_verdicts tally.old (verdicts_on_key rules.now cats.count key.now) }
    ensures hits { tally.new.hits ≤ tally.old.hits + 16 }
    ensures sum { tally.new.sum ≤ tally.old.sum + 16 * 2 ^ 32 }
{
    for category in 0..cats.count() as u32 {
        tally.add(plain_verdict(rules, key, category));
    }
}
