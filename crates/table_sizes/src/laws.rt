//! The constants are the numbers of the definitions. This runs no code.

ghost use Rattle.std.specs.Prelude.{◌≡◌};
ghost use Rattle.table_sizes.specs.Groups.{group_len, ip4_key_len, ip6_key_len, max_key_len};
ghost use Rattle.table_sizes.specs.Sizes.{max_rules, max_tries, max_words, max_keys, row_len};
ghost use Rattle.table_sizes.specs.Sizes.{few_runs, full_len};

use crate::groups::{GROUP_LEN, IP4_KEY_LEN, IP6_KEY_LEN, MAX_KEY_LEN};
use crate::sizes::{FEW_RUNS, FULL_LEN, MAX_KEYS, MAX_RULES, MAX_TRIES, MAX_WORDS, ROW_LEN};

/// Each constant is the number that the definitions say.
pub fn sizes_are_as_defined()
    ensures key { MAX_KEY_LEN ≡ max_key_len }
    ensures ip4 { IP4_KEY_LEN ≡ ip4_key_len }
    ensures ip6 { IP6_KEY_LEN ≡ ip6_key_len }
    ensures group { GROUP_LEN ≡ group_len }
    ensures rules { MAX_RULES ≡ max_rules }
    ensures words { MAX_WORDS ≡ max_words }
    ensures tries { MAX_TRIES ≡ max_tries }
    ensures keys { MAX_KEYS ≡ max_keys }
    ensures row { ROW_LEN ≡ row_len }
    ensures runs { FEW_RUNS ≡ few_runs }
    ensures full { FULL_LEN ≡ full_len }
{}
