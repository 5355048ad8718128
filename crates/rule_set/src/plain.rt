//! The verdict of a rule set, by one pass over the list of its rules.

ghost use Rattle.std.specs.Prelude.{◌≡◌, ◌<◌, length, not, MatchOption, IsTrue};
ghost use Rattle.std.specs.Int.Signed.{le_z};
ghost use Rattle.field_defs.specs.Layout.{key_len_of};
ghost use Rattle.rule_set.specs.Limits.{max_categories};
ghost use Rattle.rule_set.specs.ValuesMatch.{CanMatchAll};
ghost use Rattle.rule_set.specs.Winner.{rule_match, is_in_category, verdict};

use crate::rule::RuleTag;
use crate::set::RuleSet;
use byte_numbers::network_number;
use field_defs::{FieldDef, FieldValue, field_matches};

/// The userdata of the first matching rule of greatest priority in the category, and 0 where no
/// rule matches.
///
/// `key` has the bytes of the layout's fields, one field after the other, each in network order,
/// and `category` is below [`MAX_CATEGORIES`](crate::MAX_CATEGORIES). Of rules of equal priority
/// the one added first wins. It refuses nothing and takes no memory. Source: DPDK Programmer's
/// Guide, "Packet Classification and Access Control".
pub fn plain_verdict(rules: &RuleSet, key: &[u8], category: u32) -> u32
    requires key { length key.now ≡ key_len_of rules.now.layout }
    requires category { category < max_categories }
    ensures { result ≡ verdict rules.now.layout rules.now.rules key.now category }
{
    let defs = rules.layout().fields();
    let mut best = None;
    for rule in rules.all() {
        let tag = rule.tag();
        // The tests are in the order of what they cost.
        if is_in_category(&tag, category)
            && is_above(&tag, &best)
            && matches_key(defs, rule.fields(), key)
        {
            best = Some(tag);
        }
    }
    best.map_or(0, |tag| tag.userdata)
}

/// Whether the rule of the tag takes part in the category.
fn is_in_category(tag: &RuleTag, category: u32) -> bool
    requires { category < max_categories }
    ensures { result ≡ is_in_category tag.now category }
{
    tag.category_mask >> category & 1 == 1
}

/// Whether the tag has a greater priority than the best so far, if there is one.
fn is_above(tag: &RuleTag, best: &Option<RuleTag>) -> bool
    ensures { MatchOption best.now (IsTrue result)
        (λ other. result ≡ not (le_z tag.now.priority other.priority)) }
{
    match best {
        None => true,
        Some(other) => tag.priority > other.priority,
    }
}

/// Whether each field's bytes of the key match the rule's value for the field.
fn matches_key(defs: &[FieldDef], values: &[FieldValue], key: &[u8]) -> bool
    requires values { CanMatchAll defs.now values.now }
    requires key { length key.now ≡ key_len_of defs.now }
    ensures { result ≡ rule_match defs.now values.now key.now }
{
    let mut rest = key;
    for (def, value) in defs.iter().zip(values) {
        let (bytes, after) = rest.split_at(usize::from(def.size));
        if !field_matches(value, def.size, network_number(bytes)) {
            return false;
        }
        rest = after;
    }
    true
}
