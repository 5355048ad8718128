//! The merged states of a group of rules, counted again as plainly as can be.
//!
//! Each of the 256 bytes is tried from each state, and a state is looked for by going through the
//! list of those that were found. No code is shared with the crates that merge states. The fields
//! have at most four bytes, as those of IPv4 packets do, so that no shift here is too far.

use field_defs::{FieldDef, FieldValue};
use rule_set::{RuleSet, StoredRule};
use std::alloc::{AllocError, Global};
use trie_merge::{Run, Succ};

/// How many categories a row has.
const CATEGORIES: u32 = 16;

/// How many words a row takes.
const ROW_WORDS: u64 = 16;

/// What is counted.
#[derive(Drop)]
pub struct Counted {
    /// The kept groups of bytes, bit g for group g.
    pub kept: u128,
    /// The runs of each state at each kept place.
    pub levels: Vec<Vec<Vec<Run>>>,
    /// For each category the winner's number plus 1, or 0 for none.
    pub rows: Vec<Vec<u32>>,
    /// The words of a table of the states.
    pub words: u64,
}

/// What a rule still allows after some bytes of a key: the least and the greatest number that the
/// bytes of its current field which are not read may spell. A bitmask has no interval, and 0 twice.
#[derive(Clone, Copy, Debug, PartialEq, Eq)]
struct Rest {
    rule: u32,
    low: u64,
    high: u64,
}

/// A place of a key: its field, the field's size in bytes, and how many of these stand after it.
#[derive(Clone, Copy, Debug)]
struct Place {
    field: usize,
    size: u8,
    after: u8,
}

/// A kept place and the next one, if any.
#[derive(Clone, Copy, Debug)]
struct Step {
    place: Place,
    next: Option<Place>,
}

/// The merged states of the group, as it is counted here.
pub fn recount(alloc: Global, rules: &RuleSet, group: &[u32]) -> Result<Counted, AllocError> {
    let defs = rules.layout().fields();
    let rules = rules.all();
    let kept = kept_groups(rules, defs, group);
    let places = kept_places(alloc, defs, kept)?;
    let mut count = Count {
        states: Vec::new(alloc),
        levels: Vec::new(alloc),
        rows: Vec::new(alloc),
    };
    count_levels(alloc, rules, group, &places, &mut count)?;
    let words = words_of(count.levels.as_slice(), count.rows.len());
    Ok(Counted {
        kept,
        levels: count.levels,
        rows: count.rows,
        words,
    })
}

/// How far the count has come: the states before the place that is reached, and the levels and the
/// rows so far.
#[derive(Drop)]
struct Count {
    states: Vec<Vec<Rest>>,
    levels: Vec<Vec<Vec<Run>>>,
    rows: Vec<Vec<u32>>,
}

/// Counts the states before each kept place, from the first one on.
fn count_levels(
    alloc: Global,
    rules: &[StoredRule],
    group: &[u32],
    places: &[Place],
    count: &mut Count,
) -> Result<(), AllocError> {
    let first = first_state(alloc, rules, group, places.first())?;
    count.states.push(first)?;
    for (depth, place) in places.iter().enumerate() {
        let next = places.get(depth.wrapping_add(1)).copied();
        let step = Step {
            place: *place,
            next,
        };
        count_level(alloc, rules, step, count)?;
    }
    Ok(())
}

/// Counts the states before a place, and goes on to those after it.
fn count_level(
    alloc: Global,
    rules: &[StoredRule],
    step: Step,
    count: &mut Count,
) -> Result<(), AllocError> {
    let mut found = Vec::new(alloc);
    let states = count.states.as_slice();
    let level = level_of(alloc, rules, step, states, &mut found, &mut count.rows)?;
    count.levels.push(level)?;
    count.states = found;
    Ok(())
}

/// The runs of each of the states. Those that they lead to join the ones found.
fn level_of(
    alloc: Global,
    rules: &[StoredRule],
    step: Step,
    states: &[Vec<Rest>],
    found: &mut Vec<Vec<Rest>>,
    rows: &mut Vec<Vec<u32>>,
) -> Result<Vec<Vec<Run>>, AllocError> {
    let mut level = Vec::new(alloc);
    for state in states {
        let to = successors(alloc, rules, step, state.as_slice(), found, rows)?;
        level.push(runs_of(alloc, to.as_slice())?)?;
    }
    Ok(level)
}

/// What each byte leads to from a state.
fn successors(
    alloc: Global,
    rules: &[StoredRule],
    step: Step,
    state: &[Rest],
    found: &mut Vec<Vec<Rest>>,
    rows: &mut Vec<Vec<u32>>,
) -> Result<Vec<Succ>, AllocError> {
    let mut successors = Vec::new(alloc);
    for byte in 0..=255u8 {
        let after = state_after(alloc, rules, step, state, byte)?;
        let to = match step.next {
            Some(_) => number_in(found, after)?.map_or(Succ::Dead, Succ::State),
            None => last_successor(alloc, rules, after.as_slice(), rows)?,
        };
        successors.push(to)?;
    }
    Ok(successors)
}

/// What a state after the last place leads to: a row, which joins those that were found where it is
/// new.
fn last_successor(
    alloc: Global,
    rules: &[StoredRule],
    state: &[Rest],
    rows: &mut Vec<Vec<u32>>,
) -> Result<Succ, AllocError> {
    let row = row_of(alloc, rules, state)?;
    Ok(number_in(rows, row)?.map_or(Succ::Dead, Succ::Row))
}

/// The value of a rule for a field.
fn value_of(rules: &[StoredRule], rule: u32, field: usize) -> Option<FieldValue> {
    let rule = rules.get(rule as usize)?;
    rule.fields().get(field).copied()
}

/// The least and the greatest number of a field that the value lets through: of a mask the numbers
/// that have its leading bits.
fn allowed(value: FieldValue, size: u8) -> (u64, u64) {
    match value {
        FieldValue::Mask { value, bits } => {
            let free = (8 * u32::from(size)).wrapping_sub(u32::from(bits));
            let low = value.wrapping_shr(free).wrapping_shl(free);
            (low, low | greatest(free))
        }
        FieldValue::Range { low, high } => (low, high),
        FieldValue::Bitmask { .. } => (0, 0),
    }
}

/// The greatest number of so many bits.
fn greatest(bits: u32) -> u64 {
    1u64.wrapping_shl(bits).wrapping_sub(1)
}

/// Whether the value lets every number of the field through.
fn is_wild(value: FieldValue, size: u8) -> bool {
    match value {
        FieldValue::Bitmask { mask, .. } => mask == 0,
        _ => allowed(value, size) == (0, greatest(8 * u32::from(size))),
    }
}

/// The group of a place of the key: byte 0 alone, and then four bytes each.
fn group_of(place: u32) -> u32 {
    place.div_ceil(4)
}

/// The groups in which some rule isn't wild, or group 0 alone where there is none.
fn kept_groups(rules: &[StoredRule], defs: &[FieldDef], group: &[u32]) -> u128 {
    let mut kept = 0u128;
    let mut place = 0u32;
    for (field, def) in defs.iter().enumerate() {
        let size = def.size;
        let decides = group.iter().any(|rule| match value_of(rules, *rule, field) {
            Some(value) => !is_wild(value, size),
            None => false,
        });
        for _ in 0..size {
            if decides {
                kept |= 1u128.wrapping_shl(group_of(place));
            }
            place = place.wrapping_add(1);
        }
    }
    if kept == 0 { 1 } else { kept }
}

/// The places of the kept groups, in order.
fn kept_places(alloc: Global, defs: &[FieldDef], kept: u128) -> Result<Vec<Place>, AllocError> {
    let mut places = Vec::new(alloc);
    let mut place = 0u32;
    for (field, def) in defs.iter().enumerate() {
        let size = def.size;
        for after in (0..size).rev() {
            if kept.wrapping_shr(group_of(place)) & 1 == 1 {
                places.push(Place { field, size, after })?;
            }
            place = place.wrapping_add(1);
        }
    }
    Ok(places)
}

/// What a rule allows before the first byte of the field that has the place, or after the last
/// field, where there is nothing left to allow.
fn rest_before(rules: &[StoredRule], rule: u32, place: Option<&Place>) -> Option<Rest> {
    let (low, high) = match place {
        Some(place) => allowed(value_of(rules, rule, place.field)?, place.size),
        None => (0, 0),
    };
    Some(Rest { rule, low, high })
}

/// What a value allows after one more byte, or none where it lets no number through any more.
fn allowed_after(value: FieldValue, after: u8, rest: &Rest, byte: u8) -> Option<(u64, u64)> {
    let shift = 8 * u32::from(after);
    if let FieldValue::Bitmask { value, mask } = value {
        let wrong = (value.wrapping_shr(shift) ^ u64::from(byte)) & mask.wrapping_shr(shift) & 0xFF;
        return if wrong == 0 { Some((0, 0)) } else { None };
    }
    let first = u64::from(byte).wrapping_shl(shift);
    let low = rest.low.max(first);
    let high = rest.high.min(first | greatest(shift));
    if low <= high {
        Some((low.wrapping_sub(first), high.wrapping_sub(first)))
    } else {
        None
    }
}

/// What a rule allows after one more byte, before the next kept place.
fn rest_after(rules: &[StoredRule], at: Step, rest: &Rest, byte: u8) -> Option<Rest> {
    let value = value_of(rules, rest.rule, at.place.field)?;
    let (low, high) = allowed_after(value, at.place.after, rest, byte)?;
    if at.place.after == 0 {
        rest_before(rules, rest.rule, at.next.as_ref())
    } else {
        let rule = rest.rule;
        Some(Rest { rule, low, high })
    }
}

/// What the rules of the group allow before the first kept place.
fn first_state(
    alloc: Global,
    rules: &[StoredRule],
    group: &[u32],
    place: Option<&Place>,
) -> Result<Vec<Rest>, AllocError> {
    let mut state = Vec::new(alloc);
    for rule in group {
        if let Some(rest) = rest_before(rules, *rule, place) {
            state.push(rest)?;
        }
    }
    Ok(state)
}

/// The state after one more byte: what the rules allow that can still match.
fn state_after(
    alloc: Global,
    rules: &[StoredRule],
    step: Step,
    state: &[Rest],
    byte: u8,
) -> Result<Vec<Rest>, AllocError> {
    let mut after = Vec::new(alloc);
    for rest in state {
        if let Some(rest) = rest_after(rules, step, rest, byte) {
            after.push(rest)?;
        }
    }
    Ok(after)
}

/// The winners among the rules of a state after a whole key, or nothing where there is no rule.
fn row_of(alloc: Global, rules: &[StoredRule], state: &[Rest]) -> Result<Vec<u32>, AllocError> {
    let mut row = Vec::new(alloc);
    if !state.is_empty() {
        for category in 0..CATEGORIES {
            row.push(winner(rules, state, category))?;
        }
    }
    Ok(row)
}

/// The number plus 1 of the rule that wins in the category, or 0: the greatest priority, and of
/// that the first place. The rules of a state are in the order of their places.
fn winner(rules: &[StoredRule], state: &[Rest], category: u32) -> u32 {
    let mut greatest = -1;
    let mut winner = 0;
    for rest in state {
        if let Some(rule) = rules.get(rest.rule as usize) {
            let tag = rule.tag();
            let takes_part = tag.category_mask.wrapping_shr(category) & 1 == 1;
            if takes_part && tag.priority > greatest {
                greatest = tag.priority;
                winner = rest.rule.wrapping_add(1);
            }
        }
    }
    winner
}

/// The number of the list among those found, which it joins where it is new. An empty list has
/// none.
fn number_in<T: PartialEq + Drop>(
    found: &mut Vec<Vec<T>>,
    list: Vec<T>,
) -> Result<Option<u32>, AllocError> {
    if list.is_empty() {
        return Ok(None);
    }
    let place = found.iter().position(|other| *other == list);
    let number = match place {
        Some(number) => number,
        None => {
            let number = found.len();
            found.push(list)?;
            number
        }
    };
    Ok(u32::try_from(number).ok())
}

/// The runs of a state: one ends where the next byte has another successor, or none.
fn runs_of(alloc: Global, successors: &[Succ]) -> Result<Vec<Run>, AllocError> {
    let mut runs = Vec::new(alloc);
    for (last, to) in (0..=255u8).zip(successors) {
        let next = successors.get(usize::from(last) + 1);
        if next != Some(to) {
            runs.push(Run { last, to: *to })?;
        }
    }
    Ok(runs)
}

/// The words of all states and rows: 1, 5 or 256 for a state of one run, of at most five, or of
/// more.
fn words_of(levels: &[Vec<Vec<Run>>], rows: usize) -> u64 {
    let mut words = ROW_WORDS.wrapping_mul(rows as u64);
    for level in levels {
        for runs in level.iter() {
            words = words.wrapping_add(match runs.len() {
                1 => 1,
                2..=5 => 5,
                _ => 256,
            });
        }
    }
    words
}
