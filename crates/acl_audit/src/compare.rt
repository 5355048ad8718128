//! Whether two rule sets decide alike, and the least key at which they don't.

ghost use Rattle.std.specs.Prelude.{◌≡◌, ◌≢◌, ℕ, ◌+◌, ◌*◌, ◌<◌, ◌≤◌, ◌↔◌, length, true, false, None};
ghost use Rattle.std.specs.Prelude.{IfSome, OnOk, IfOk, Err};
ghost use Rattle.table_sizes.specs.Sizes.{max_rules, max_words};
ghost use Rattle.group_states.specs.Levels.{levels_of};
ghost use Rattle.acl_audit.specs.declared.compare.CompareFault.TheVariants.{TooManyRules, TooLarge};
ghost use Rattle.acl_audit.specs.Compared.{told_difference, is_too_large, TellsHalf};
ghost use Rattle.acl_audit.specs.Difference.{difference_from, difference};
ghost use Rattle.acl_audit.specs.Half.{half_len, half_of, exceeds};
ghost use Rattle.acl_audit.specs.Laws.{AreAlike, AreUnlikeAt};
ghost use Rattle.acl_audit.specs.Least.{all_rules};
ghost use Rattle.acl_audit.specs.Traced.{key_of_row};

use crate::audit::{AuditFault, merged};
use crate::half::{HALF_LEN, are_halves_equal, half_of};
use crate::trace::{row_key, way_of};
use crate::unlike::first_unlike;
use rule_set::RuleSet;
use std::alloc::{AllocError, Global};
use table_sizes::MAX_RULES;
use thiserror::Error;
use trie_merge::Levels;

/// What a comparison of two rule sets tells.
#[derive(Drop)]
pub enum Compared {
    /// The verdicts are equal for every key, in each of the 16 categories.
    Same,
    /// The verdicts are unlike at this key in this category.
    ///
    /// Where they are unlike for some key in a category below 8, the key is the least at which they
    /// are in such a category, and the category the least such there. Otherwise the same holds for
    /// the categories from 8 on.
    Differ {
        /// The bytes of the layout's fields, one field after the other in network order.
        key: Vec<u8>,
        /// The category, below 16.
        category: u32,
    },
}

/// Why there is no comparison.
#[derive(Clone, Copy, Debug, Error)]
pub enum CompareFault {
    /// Both sets together have more than 262,144 rules.
    #[error("both lists together have too many rules")]
    TooManyRules,
    /// A table of the rules of both sets in eight categories has more words than the budget.
    #[error("the table needs {words} words, and the budget is {budget}")]
    TooLarge {
        /// One word more than the budget.
        words: u64,
        /// The budget.
        budget: u64,
    },
    /// There is no memory for the rules of both sets or for their merged states.
    #[error("out of memory")]
    OutOfMemory,
}

/// Want of memory ends a comparison, whatever it was doing.
impl From<AllocError> for CompareFault {
    ghost use Rattle.std.specs.Prelude.{◌≡◌};
    ghost use Rattle.acl_audit.specs.declared.compare.CompareFault.TheVariants.{OutOfMemory};

    ghost from_gives = { λ _ fault. fault ≡ OutOfMemory };

    fn from(_: AllocError) -> CompareFault {
        CompareFault::OutOfMemory
    }
}

/// The least key that leads to the row.
fn key_of_row(
    alloc: Global,
    rules: &RuleSet,
    levels: &Levels,
    row: usize,
) -> Result<Vec<u8>, AllocError>
    requires some { 0 < length rules.now.rules }
    requires levels { levels.now ≡ levels_of rules.now (all_rules rules.now) }
    requires within { levels.now.words ≤ max_words }
    requires row { row < length levels.now.rows }
    ensures { IfOk result (λ key. key.items ≡ key_of_row rules.now levels.now row) }
{
    let way = way_of(alloc, rules, levels)?;
    let (links, places) = (way.links.as_slice(), way.places.as_slice());
    row_key(alloc, links, places, way.key_len, row)
}

/// The merged states of a half's rules.
fn half_levels(alloc: Global, rules: &RuleSet, budget: u64) -> Result<Levels, CompareFault>
    requires some { 0 < length rules.now.rules }
    requires budget { budget ≤ max_words }
    ensures levels { IfOk result (λ levels. levels ≡ levels_of rules.now (all_rules rules.now)) }
    ensures within { IfOk result (λ levels. levels.words ≤ budget) }
    ensures over { (words most : ℕ) → result ≡ Err (TooLarge words most) →
        (exceeds rules.now budget ≡ true) × (words ≡ budget + 1) × (most ≡ budget) }
    ensures few { result ≢ Err TooManyRules }
{
    match merged(alloc, rules, budget) {
        Ok(levels) => Ok(levels),
        Err(AuditFault::TooLarge { words, budget }) => {
            Err(CompareFault::TooLarge { words, budget })
        }
        Err(AuditFault::OutOfMemory) => Err(CompareFault::OutOfMemory),
    }
}

/// Finds the least key at which the two lists of a half answer unlike in its merged states.
fn find_unlike(
    alloc: Global,
    rules: &RuleSet,
    levels: &Levels,
    half: u32,
) -> Result<Compared, AllocError>
    requires some { 0 < length rules.now.rules }
    requires levels { levels.now ≡ levels_of rules.now (all_rules rules.now) }
    requires within { levels.now.words ≤ max_words }
    requires half { half < 2 }
    ensures { IfOk result (TellsHalf rules.now half) }
{
    let _rules = rules.all();
    let _fields = rules.layout().fields();
    rule_set::laws::the_winner_is_among_all_places();
    match first_unlike(rules, levels) {
        Some(unlike) => {
            let key = key_of_row(alloc, rules, levels, unlike.row)?;
            let category = HALF_LEN * half + unlike.category;
            Ok(Compared::Differ { key, category })
        }
        None => Ok(Compared::Same),
    }
}

/// Compares the two lists of a half.
fn compare_lists(
    alloc: Global,
    rules: &RuleSet,
    half: u32,
    budget: u64,
) -> Result<Compared, CompareFault>
    requires half { half < 2 }
    requires budget { budget ≤ max_words }
    ensures told { IfOk result (TellsHalf rules.now half) }
    ensures fits { OnOk result (exceeds rules.now budget ≡ false) }
    ensures over { (words most : ℕ) → result ≡ Err (TooLarge words most) →
        (exceeds rules.now budget ≡ true) × (words ≡ budget + 1) × (most ≡ budget) }
    ensures few { result ≢ Err TooManyRules }
{
    if rules.is_empty() {
        return Ok(Compared::Same);
    }
    match half_levels(alloc, rules, budget) {
        Ok(levels) => match find_unlike(alloc, rules, &levels, half) {
            Ok(compared) => Ok(compared),
            Err(AllocError) => Err(CompareFault::OutOfMemory),
        },
        Err(fault) => Err(fault),
    }
}

/// Compares two sets in eight categories: those from 0 on in half 0, and those from 8 on in half 1.
fn compare_half(
    alloc: Global,
    one: &RuleSet,
    two: &RuleSet,
    half: u32,
    budget: u64,
) -> Result<Compared, CompareFault>
    requires layouts { one.now.layout ≡ two.now.layout }
    requires rules { length one.now.rules + length two.now.rules ≤ max_rules }
    requires half { half < 2 }
    requires budget { budget ≤ max_words }
    ensures told { IfOk result (λ compared. told_difference compared
        ≡ difference_from one.now two.now (half_len * half)) }
    ensures fits { OnOk result (exceeds (half_of one.now two.now half) budget ≡ false) }
    ensures over { (words most : ℕ) → result ≡ Err (TooLarge words most) →
        (exceeds (half_of one.now two.now half) budget ≡ true)
        × (words ≡ budget + 1) × (most ≡ budget) }
    ensures few { result ≢ Err TooManyRules }
{
    let rules = half_of(alloc, one, two, half)?;
    compare_lists(alloc, &rules, half, budget)
}

/// Compares two sets in the categories from 8 on, where they are alike in those below 8 and the
/// table of these fits.
fn compare_second(
    alloc: Global,
    one: &RuleSet,
    two: &RuleSet,
    budget: u64,
) -> Result<Compared, CompareFault>
    requires layouts { one.now.layout ≡ two.now.layout }
    requires rules { length one.now.rules + length two.now.rules ≤ max_rules }
    requires budget { budget ≤ max_words }
    requires alike { difference_from one.now two.now 0 ≡ None }
    requires first { exceeds (half_of one.now two.now 0) budget ≡ false }
    ensures told { IfOk result
        (λ compared. told_difference compared ≡ difference_from one.now two.now half_len) }
    ensures fits { OnOk result (exceeds (half_of one.now two.now 1) budget ≡ false) }
    ensures over { (words most : ℕ) → result ≡ Err (TooLarge words most) →
        (exceeds (half_of one.now two.now 1) budget ≡ true)
        × (words ≡ budget + 1) × (most ≡ budget) }
    ensures few { result ≢ Err TooManyRules }
{
    // What was found of the first half then holds of the second one too.
    if are_halves_equal(one, two) {
        return Ok(Compared::Same);
    }
    compare_half(alloc, one, two, 1, budget)
}

/// Compares two sets of not too many rules in all categories.
fn compare_both(
    alloc: Global,
    one: &RuleSet,
    two: &RuleSet,
    budget: u64,
) -> Result<Compared, CompareFault>
    requires layouts { one.now.layout ≡ two.now.layout }
    requires rules { length one.now.rules + length two.now.rules ≤ max_rules }
    requires budget { budget ≤ max_words }
    ensures told { IfOk result
        (λ compared. told_difference compared ≡ difference one.now two.now) }
    ensures fits { OnOk result (is_too_large one.now two.now budget ≡ false) }
    ensures over { (words most : ℕ) → result ≡ Err (TooLarge words most) →
        (is_too_large one.now two.now budget ≡ true)
        × (words ≡ budget + 1) × (most ≡ budget) }
    ensures few { result ≢ Err TooManyRules }
{
    match compare_half(alloc, one, two, 0, budget) {
        Ok(Compared::Same) => compare_second(alloc, one, two, budget),
        Ok(Compared::Differ { key, category }) => Ok(Compared::Differ { key, category }),
        Err(fault) => Err(fault),
    }
}

/// Tells whether two rule sets of one layout have equal verdicts for every key in all 16
/// categories, and else the least key and category at which they don't.
///
/// The layouts are equal, and the budget is from 1 to [`table_sizes::MAX_WORDS`] words. The rules
/// of both sets are merged in their categories below 8, and where these are alike in those from 8
/// on; rules without such a category are left out, and no rules need no table. Where each rule of
/// both sets has the same eight categories there, they aren't merged a second time.
/// `TooManyRules` comes exactly where both sets together have more than [`table_sizes::MAX_RULES`]
/// rules, and `TooLarge` exactly where such a table of both has more words than the budget, unless
/// memory ran out before that was known; its words are one more than the budget. It takes memory
/// for a copy of the rules of both sets, for the merged states and for a number and a byte for each
/// of them, and gives it back before it returns, but for that of the key. A rule of userdata 0 and
/// no matching rule have equal verdicts. Source: DPDK Programmer's Guide, "Packet Classification
/// and Access Control".
pub fn compare_rules(
    alloc: Global,
    one: &RuleSet,
    two: &RuleSet,
    budget: u64,
) -> Result<Compared, CompareFault>
    requires layouts { one.now.layout ≡ two.now.layout }
    requires some { 0 < budget }
    requires budget { budget ≤ max_words }
    ensures told { IfOk result
        (λ compared. told_difference compared ≡ difference one.now two.now) }
    ensures same { IfOk result
        (λ compared. (told_difference compared ≡ None) ↔ AreAlike one.now two.now) }
    ensures differ { IfOk result
        (λ compared. IfSome (told_difference compared) (AreUnlikeAt one.now two.now)) }
    ensures too_many { (result ≡ Err TooManyRules)
        ↔ (max_rules < length one.now.rules + length two.now.rules) }
    ensures fits { OnOk result (is_too_large one.now two.now budget ≡ false) }
    ensures too_large { (words most : ℕ) → result ≡ Err (TooLarge words most) →
        (is_too_large one.now two.now budget ≡ true)
        × (words ≡ budget + 1) × (most ≡ budget) }
{
    if one.all().len() + two.all().len() > MAX_RULES {
        return Err(CompareFault::TooManyRules);
    }
    compare_both(alloc, one, two, budget)
}
