//! How one group of rules becomes two.

ghost use Rattle.std.specs.Prelude.{◌≡◌, ◌<◌, ◌≢◌, [], ◌∷◌, length, take, drop, All, IfOk};
ghost use Rattle.group_states.specs.Levels.{IsGroup};
ghost use Rattle.rule_set.specs.Groups.{greatest};
ghost use Rattle.rule_split.specs.Divide.{is_wild_in, wild_rules, bound_rules, smaller_side};
ghost use Rattle.rule_split.specs.Divide.{smaller_sides, greatest_place, half_of, divided};

use field_defs::is_wild;
use rule_set::RuleSet;
use std::alloc::{AllocError, Global};

/// The two groups that a group becomes.
#[derive(Drop)]
pub(crate) struct Divided {
    pub(crate) first: Vec<u32>,
    pub(crate) second: Vec<u32>,
}

impl Divided {
    ghost use Rattle.std.specs.Prelude.{◌≡◌, ◌++◌, ◌∷◌, [], OnOk, if◌then◌else◌};

    /// Puts the rule after those of its side: the second one where it is wild.
    fn push(&mut self, number: u32, is_wild: bool) -> Result<(), AllocError>
        ensures first { OnOk result (self.new.first.items
            ≡ (if is_wild then self.old.first.items else self.old.first.items ++ number ∷ [])) }
        ensures second { OnOk result (self.new.second.items
            ≡ (if is_wild then self.old.second.items ++ number ∷ [] else self.old.second.items)) }
    {
        if is_wild {
            self.second.push(number)?;
        } else {
            self.first.push(number)?;
        }
        Ok(())
    }
}

/// Whether the rule at that place of the set is wild in the field at that place of the layout.
fn is_wild_in(rules: &RuleSet, field: usize, number: u32) -> bool
    requires field { field < length rules.now.layout }
    requires number { number < length rules.now.rules }
    ensures { result ≡ is_wild_in rules.now field number }
{
    let defs = rules.layout().fields();
    is_wild(&rules.at(number as usize).fields()[field], defs[field].size)
}

/// How many rules of the group are wild in the field, or how many aren't where those are fewer.
fn smaller_side(rules: &RuleSet, group: &[u32], field: usize) -> usize
    requires field { field < length rules.now.layout }
    requires numbers { All (λ number. number < length rules.now.rules) group.now }
    ensures { result ≡ smaller_side rules.now group.now field }
{
    let mut wild = 0;
    for number in group {
        if is_wild_in(rules, field, *number) {
            wild += 1;
        }
    }
    wild.min(group.len() - wild)
}

/// That number for each field.
fn smaller_sides(alloc: Global, rules: &RuleSet, group: &[u32]) -> Result<Vec<usize>, AllocError>
    requires { All (λ number. number < length rules.now.rules) group.now }
    ensures { IfOk result (λ sides. sides.items ≡ smaller_sides rules.now group.now) }
{
    let count = rules.layout().fields().len();
    let mut sides = Vec::with_capacity(alloc, count)?;
    for field in 0..count {
        sides.push(smaller_side(rules, group, field))?;
    }
    Ok(sides)
}

/// The greatest of the numbers, and 0 where there is none.
fn greatest(numbers: &[usize]) -> usize
    ensures { result ≡ greatest numbers.now }
{
    let mut most = 0;
    for number in numbers {
        most = most.max(*number);
    }
    most
}

/// Where the greatest of the numbers stands first. It isn't 0.
fn place_of(numbers: &[usize], most: usize) -> usize
    requires most { most ≡ greatest numbers.now }
    requires some { most ≢ 0 }
    ensures place { result ≡ greatest_place numbers.now }
    ensures within { result < length numbers.now }
{
    for place in 0..numbers.len() {
        if numbers[place] == most {
            return place;
        }
    }
    unreachable!()
}

/// The numbers as a list of their own.
fn copied(alloc: Global, numbers: &[u32]) -> Result<Vec<u32>, AllocError>
    ensures { IfOk result (λ copy. copy.items ≡ numbers.now) }
{
    let mut copy = Vec::with_capacity(alloc, numbers.len())?;
    copy.extend_from_slice(numbers)?;
    Ok(copy)
}

/// The first half of the group and the second one.
fn halves(alloc: Global, group: &[u32]) -> Result<Divided, AllocError>
    ensures first { IfOk result
        (λ halves. halves.first.items ≡ take (half_of group.now) group.now) }
    ensures second { IfOk result
        (λ halves. halves.second.items ≡ drop (half_of group.now) group.now) }
{
    // Of an odd number the first half has one more.
    let (first, second) = group.split_at(group.len().div_ceil(2));
    Ok(Divided {
        first: copied(alloc, first)?,
        second: copied(alloc, second)?,
    })
}

/// The rules of the group that aren't wild in the field, and those that are.
fn sides(alloc: Global, rules: &RuleSet, group: &[u32], field: usize) -> Result<Divided, AllocError>
    requires field { field < length rules.now.layout }
    requires numbers { All (λ number. number < length rules.now.rules) group.now }
    ensures first { IfOk result
        (λ sides. sides.first.items ≡ bound_rules rules.now group.now field) }
    ensures second { IfOk result
        (λ sides. sides.second.items ≡ wild_rules rules.now group.now field) }
{
    let mut sides = Divided {
        first: Vec::new(alloc),
        second: Vec::new(alloc),
    };
    for number in group {
        sides.push(*number, is_wild_in(rules, field, *number))?;
    }
    Ok(sides)
}

/// The two groups that the group becomes: the rules that aren't wild in the field that divides it,
/// and those that are, or two halves where no field divides it.
#[tactic(auto, unfolding(crate::specs::Divide::divided))]
pub(crate) fn divide(alloc: Global, rules: &RuleSet, group: &[u32]) -> Result<Divided, AllocError>
    requires { IsGroup rules.now group.now }
    ensures { IfOk result
        (λ two. two.first.items ∷ two.second.items ∷ [] ≡ divided rules.now group.now) }
{
    let numbers = smaller_sides(alloc, rules, group)?;
    let most = greatest(numbers.as_slice());
    if most == 0 {
        halves(alloc, group)
    } else {
        sides(alloc, rules, group, place_of(numbers.as_slice(), most))
    }
}
