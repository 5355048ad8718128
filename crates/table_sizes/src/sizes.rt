//! The sizes of tables, and the words that a node takes.

ghost use Rattle.std.specs.Prelude.{◌≡◌, ◌<◌, ◌≤◌};
ghost use Rattle.table_sizes.specs.Sizes.{cost_of, full_len};

/// The most rules that a set has, and so the table that is made of it.
pub const MAX_RULES: usize = 262_144;

/// The most words of 64 bits that a table has, those of its rows counted: 512 MiB.
pub const MAX_WORDS: usize = 67_108_864;

/// The most tries that a table has: one for each group of rules (`RTE_ACL_MAX_TRIES` of DPDK's
/// `lib/acl`, `acl.h`).
pub const MAX_TRIES: usize = 8;

/// The most keys that a batch has.
pub const MAX_KEYS: usize = 65_536;

/// How many words a row has: one for each of sixteen categories.
pub const ROW_LEN: usize = 16;

/// The most runs of bytes that a node leads on by without a word for each byte value. A quad-range
/// node has a word for each of so many.
pub const FEW_RUNS: usize = 5;

/// How many words a full node has: one for each byte value.
pub const FULL_LEN: usize = 256;

/// How many words the node of so many runs of bytes takes: 1, 5 or 256. It takes no memory.
///
/// Source: DPDK's `lib/acl/acl_gen.c`; its full node shares words, ours doesn't.
pub fn node_len(runs: usize) -> usize
    ensures value { result ≡ cost_of runs }
    ensures some { 0 < result }
    ensures bound { result ≤ full_len }
{
    if runs == 1 {
        1
    } else if runs <= FEW_RUNS {
        FEW_RUNS
    } else {
        FULL_LEN
    }
}
