//! What a split comes to: a plan, or why there is none.

use std::alloc::AllocError;
use std::marker::Model;
use thiserror::Error;
use trie_merge::Levels;

/// Why there is no plan.
#[derive(Clone, Copy, Debug, Error)]
pub enum PlanFault {
    /// The split ends with a total of so many words, which is above the budget. A group of more
    /// words than the budget counts as one word more than it.
    #[error("the table needs {words} words, and the budget is {budget}")]
    TooLarge {
        /// The total.
        words: u64,
        /// The budget.
        budget: u64,
    },
    /// There is no memory for the merged states.
    #[error("out of memory")]
    OutOfMemory,
}

/// Want of memory ends a split, whatever it was doing.
impl From<AllocError> for PlanFault {
    ghost use Rattle.std.specs.Prelude.{◌≡◌};
    ghost use Rattle.rule_split.specs.declared.answer.PlanFault.TheVariants.{OutOfMemory};

    ghost from_gives = { λ _ fault. fault ≡ OutOfMemory };

    fn from(_: AllocError) -> PlanFault {
        PlanFault::OutOfMemory
    }
}

/// The merged states of each group of a rule set, and the words of a table of all of them.
/// Contracts see the two.
#[derive(Drop)]
pub struct Plan {
    pub(crate) levels: Vec<Levels>,
    pub(crate) total: u64,
}

impl Model for Plan {
    ghost use Rattle.rule_split.specs.Split.{PlanView};

    ghost Value = { PlanView };

    ghost view = { λ plan. record { levels = plan.levels.items; total = plan.total } };
}

impl Plan {
    ghost use Rattle.std.specs.Prelude.{◌≡◌};

    /// The merged states of each group, in the order of the groups.
    pub fn levels(&self) -> &[Levels]
        ensures { result.now ≡ self.now.levels }
    {
        self.levels.as_slice()
    }

    /// The words of a table of all groups: 16 for the row of no rule, and those of each group.
    pub fn total(&self) -> u64
        ensures { result ≡ self.now.total }
    {
        self.total
    }
}
