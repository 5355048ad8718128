//! The table of the merged states of all groups.

ghost use Rattle.std.specs.Prelude.{◌≡◌, ◌+◌, ◌*◌, ◌≤◌, length, sum_by, All, OnOk, IfOk};
ghost use Rattle.field_defs.specs.Layout.{key_len_of};
ghost use Rattle.field_defs.specs.Lawful.{IsLayout};
ghost use Rattle.rule_set.specs.RuleSet.{IsRuleSet};
ghost use Rattle.rule_set.specs.Groups.{IsPartition};
ghost use Rattle.group_states.specs.Levels.{LevelsView, levels_of};
ghost use Rattle.table_sizes.specs.Sizes.{max_tries, max_words, row_len};
ghost use Rattle.table_fill.specs.Filled.{table_of_tries, filled};
ghost use Rattle.table_fill.specs.Serves.{Serves};
ghost use Rattle.table_fill.specs.Tries.{groups_of_tries, AreOfGroups};
ghost use Rattle.table_fill.specs.Laws.{CanBeFilled};
ghost use Rattle.flat_table.specs.Table.{view_of, words_of};

use crate::rows::{rows_of, rule_words};
use crate::tries::{kept_of, level_lens_of, roots_of, words_of};
use flat_table::{Parts, Table};
use rule_set::RuleSet;
use std::alloc::{AllocError, Global};
use trie_merge::Levels;

/// How many bytes a key of the rules has, and how many rules there are.
fn sizes(rules: &RuleSet) -> (u32, u32)
    ensures key_len { result.0 ≡ key_len_of rules.now.layout }
    ensures rules { result.1 ≡ length rules.now.rules }
    ensures lawful { IsRuleSet rules.now }
    ensures layout { IsLayout rules.now.layout }
{
    let _fields = rules.layout().fields();
    (rules.layout().key_len() as u32, rules.all().len() as u32)
}

/// The parts of the table of the rules.
fn parts_of(alloc: Global, rules: &RuleSet, levels: &[Levels]) -> Result<Parts, AllocError>
    requires { AreOfGroups rules.now levels.now }
    ensures parts { IfOk result
        (λ parts. view_of parts ≡ table_of_tries rules.now levels.now) }
    ensures can { OnOk result (CanBeFilled rules.now (groups_of_tries levels.now)) }
{
    let (key_len, count) = sizes(rules);
    let words = rule_words(alloc, rules)?;
    Ok(Parts {
        key_len,
        rules: count,
        kept: kept_of(alloc, levels)?,
        roots: roots_of(alloc, levels)?,
        level_lens: level_lens_of(alloc, levels)?,
        words: words_of(alloc, levels)?,
        rows: rows_of(alloc, &words, levels)?,
    })
}

/// The table of the rules: a trie for each of the levels, in order.
///
/// The levels are at most 8, each of its group of these rules, and the groups hold each rule once.
/// The words of all levels and the 16 of the row of no rule are at most [`table_sizes::MAX_WORDS`].
/// It refuses nothing, and takes memory for the table, for a word for each rule, and for a word for
/// each state of the greatest level.
/// Source: DPDK Programmer's Guide, "Packet Classification and Access Control", and `lib/acl`,
/// `acl_gen.c`.
pub fn fill(alloc: Global, rules: &RuleSet, levels: &[Levels]) -> Result<Table, AllocError>
    requires few { length levels.now ≤ max_tries }
    requires groups { IsPartition (length rules.now.rules) (groups_of_tries levels.now) }
    requires levels { All (λ (trie : LevelsView). trie ≡ levels_of rules.now trie.group)
        levels.now }
    requires size { row_len + sum_by (λ (trie : LevelsView). trie.words) levels.now ≤ max_words }
    ensures table { IfOk result (λ table. table ≡ filled rules.now (groups_of_tries levels.now)) }
    ensures serves { IfOk result (λ table. Serves rules.now table) }
    ensures words { IfOk result (λ table. words_of table
        ≡ row_len + sum_by (λ (trie : LevelsView). trie.words) levels.now) }
{
    let parts = parts_of(alloc, rules, levels)?;
    Ok(Table::from_sound(parts))
}
