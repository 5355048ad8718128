//! What `bench` is asked for: a seed, and how much it gives.

ghost use Rattle.std.specs.Prelude.{◌≤◌};
ghost use Rattle.table_sizes.specs.Sizes.{max_keys};
ghost use Rattle.workload_gen.specs.declared.workload.TheConstants.{MAX_WORKLOAD_RULES};

use table_sizes::MAX_KEYS;

/// How many packets are drawn at most: as many as a batch of keys may have.
pub const MAX_PACKETS: u32 = MAX_KEYS as u32;

/// What `bench` is asked for.
#[derive(Clone, Copy)]
pub struct BenchNumbers {
    pub seed: u64,
    /// How many rules are drawn, at most 1,024.
    pub rules: u32,
    /// How many packets are drawn, at most 65,536.
    pub packets: u32,
    ghost few_rules: { rules ≤ MAX_WORKLOAD_RULES },
    ghost few_packets: { packets ≤ max_keys },
}
