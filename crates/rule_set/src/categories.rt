//! How many categories a classification takes.

ghost use Rattle.std.specs.Prelude.{◌≡◌, ◌<◌, ◌≤◌, ◌↔◌, IsTrue, IsSome, IfSome};
ghost use Rattle.rule_set.specs.Categories.{is_count_of_categories};
ghost use Rattle.rule_set.specs.Limits.{max_categories};

/// How many categories there are (`RTE_ACL_MAX_CATEGORIES` of DPDK's `rte_acl.h`).
pub const MAX_CATEGORIES: usize = 16;

/// How many categories a classification takes: 1, 4, 8, 12 or 16, counted from category 0 on.
///
/// Source: DPDK Programmer's Guide, "Packet Classification and Access Control" (1, or a multiple of
/// `RTE_ACL_RESULTS_MULTIPLIER`, up to `RTE_ACL_MAX_CATEGORIES`).
#[derive(Clone, Copy)]
pub struct Categories {
    count: usize,
    ghost lawful: { IsTrue (is_count_of_categories count) },
}

impl Categories {
    /// So many categories, and None where a classification can't take that number. It takes no
    /// memory.
    pub fn new(n: u32) -> Option<Categories>
        ensures some { IsSome result ↔ IsTrue (is_count_of_categories n) }
        ensures count { IfSome result (λ cats. cats.count ≡ n) }
    {
        match n {
            1 | 4 | 8 | 12 | 16 => Some(Categories { count: n as usize }),
            _ => None,
        }
    }

    /// How many categories these are.
    pub fn count(&self) -> usize
        ensures value { result ≡ self.now.count }
        ensures some { 0 < result }
        ensures bound { result ≤ max_categories }
    {
        self.count
    }
}
