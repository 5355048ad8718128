//! The first row of a half in which its two lists answer unlike.

ghost use Rattle.std.specs.Prelude.{◌≡◌, ◌<◌, ◌≤◌, length, All, IfSome};
ghost use Rattle.table_sizes.specs.Sizes.{row_len};
ghost use Rattle.acl_audit.specs.Half.{half_len};
ghost use Rattle.acl_audit.specs.Unlike.{entry_userdata, is_unlike_in, unlike_category};
ghost use Rattle.acl_audit.specs.Unlike.{first_unlike};

use crate::half::HALF_LEN;
use rule_set::RuleSet;
use table_sizes::ROW_LEN;
use trie_merge::Levels;

/// A row, and a category of the first list in which it answers unlike the second.
#[derive(Clone, Copy)]
pub(crate) struct Unlike {
    /// The number of the row.
    pub(crate) row: usize,
    /// The category, below 8.
    pub(crate) category: u32,
}

/// The userdata of the rule that the entry names, and 0 where it names none.
fn entry_userdata(rules: &RuleSet, entry: u32) -> u32
    requires { entry ≤ length rules.now.rules }
    ensures { result ≡ entry_userdata rules.now.rules entry }
{
    let entry = entry as usize;
    if entry == 0 {
        return 0;
    }
    rules.at(entry - 1).tag().userdata
}

/// Whether the row answers unlike in a category of the first list and that of the second.
fn is_unlike_in(rules: &RuleSet, row: &[u32; ROW_LEN], category: u32) -> bool
    requires entries { All (λ entry. entry ≤ length rules.now.rules) row.now }
    requires category { category < half_len }
    ensures { result ≡ is_unlike_in rules.now.rules row.now category }
{
    let first = row[category as usize];
    let second = row[(category + HALF_LEN) as usize];
    entry_userdata(rules, first) != entry_userdata(rules, second)
}

/// The first category in which the row answers unlike.
fn unlike_category(rules: &RuleSet, row: &[u32; ROW_LEN]) -> Option<u32>
    requires { All (λ entry. entry ≤ length rules.now.rules) row.now }
    ensures first { result ≡ unlike_category rules.now.rules row.now }
    ensures bound { IfSome result (λ category. category < half_len) }
{
    for category in 0..HALF_LEN {
        if is_unlike_in(rules, row, category) {
            return Some(category);
        }
    }
    None
}

/// The first row in which the two lists answer unlike, and the first category there.
pub(crate) fn first_unlike(rules: &RuleSet, levels: &Levels) -> Option<Unlike>
    requires { All (All (λ entry. entry ≤ length rules.now.rules)) levels.now.rows }
    ensures first { result ≡ first_unlike rules.now.rules 0 levels.now.rows }
    ensures row { IfSome result (λ unlike. unlike.row < length levels.now.rows) }
    ensures category { IfSome result (λ unlike. unlike.category < half_len) }
{
    for row in 0..levels.rows() {
        match unlike_category(rules, levels.row(row)) {
            Some(category) => return Some(Unlike { row, category }),
            None => {}
        }
    }
    None
}
