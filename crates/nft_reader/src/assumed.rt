//! Comparisons with what is known of packets beside their bytes, or assumed. Nothing here takes
//! memory.

ghost use Rattle.std.specs.Prelude.{◌≡◌, map, option_map};
ghost use Rattle.std.specs.List.{list_all, list_any};
ghost use Rattle.json.specs.Value.{value_view as view};
ghost use Rattle.nft_reader.specs.Assumed as assumed;
ghost use Rattle.nft_reader.specs.Shapes.{all_seen, text_seen};
ghost use Rattle.list_packets.specs.Assumed.{state_named};

use crate::compared::{Fact, Naming, Operator, Way, is_ip4, is_of};
use crate::fault::RuleKind;
use crate::hooks::{Base, knows_state, knows_way};
use crate::known::Known;
use crate::sets::at_name;
use crate::shapes::listed_values;
use crate::values::elements_of;
use json::Value;
use list_packets::{assumed_state, is_interface, meets_interface, state_named, value_in};

/// What stands at the end of a name for whatever follows there.
const STAR: u8 = b'*';

/// The word of a value, or else `/`, which names no interface and no state.
fn word_of<'a>(value: &Value<'a>) -> &'a [u8]
    ensures { result.now ≡ assumed.word_of (view value.now) }
{
    match value.as_str() {
        Some(word) => word.as_bytes(),
        None => b"/".as_slice(),
    }
}

/// Whether a word may stand so. Before a `*` that is part of a name nft prints `\`, and of an index
/// it prints the name of one interface.
fn may_be_named(naming: Naming, word: &[u8]) -> bool
    ensures { result ≡ assumed.may_be_named naming word.now }
{
    match naming {
        Naming::Name => !word.contains(&b'\\'),
        Naming::Index => !word.contains(&STAR),
    }
}

/// Whether a word names interfaces, and isn't that of a set.
fn is_interface_word(naming: Naming, word: &[u8]) -> bool
    ensures { result ≡ assumed.is_interface_word naming word.now }
{
    at_name(word).is_none() && is_interface(STAR, word) && may_be_named(naming, word)
}

/// The interface that is assumed.
pub(crate) fn interface_of(text: &[u8], way: Way) -> Option<&[u8]>
    ensures { option_map text_seen result ≡ assumed.interface_of way text.now }
{
    match way {
        Way::In => value_in(text, b"in"),
        Way::Out => value_in(text, b"out"),
    }
}

/// Whether each value names interfaces.
fn are_interfaces(naming: Naming, values: &[Value<'_>]) -> bool
    ensures { result
        ≡ list_all (λ value. assumed.is_interface_value naming (view value)) values.now }
{
    values
        .iter()
        .all(|value| is_interface_word(naming, word_of(value)))
}

/// Whether one of the values names the interface.
fn has_interface(name: &[u8], values: &[Value<'_>]) -> bool
    ensures { result ≡ list_any (λ value. assumed.meets_value name.now (view value)) values.now }
{
    values
        .iter()
        .any(|value| meets_interface(STAR, word_of(value), name))
}

/// Whether packets have an interface that values name, or a cause where that isn't known.
pub(crate) fn interface_met(
    text: &[u8],
    way: Way,
    naming: Naming,
    values: &[Value<'_>],
) -> Result<bool, RuleKind>
    ensures { result ≡ assumed.interface_met text.now way naming (map view values.now) }
{
    if !are_interfaces(naming, values) {
        return Err(RuleKind::CantSay);
    }
    match interface_of(text, way) {
        Some(name) => Ok(has_interface(name, values)),
        None => Err(RuleKind::NeedsInterface),
    }
}

/// The states of the right side: after `in` and `!` those of a list, else those of a set.
pub(crate) fn state_values<'v, 'a>(
    operator: Operator,
    right: &'v Value<'a>,
) -> Option<&'v [Value<'a>]>
    ensures { option_map all_seen result ≡ assumed.state_values operator (view right.now) }
{
    match operator {
        Operator::In | Operator::NotIn => Some(listed_values(right)),
        Operator::Equal | Operator::Unequal => elements_of(right),
    }
}

/// Whether a word is the state of the number.
fn is_that_state(number: u64, word: &[u8]) -> bool
    ensures { result ≡ assumed.is_state number (state_named word.now) }
{
    match state_named(word) {
        Some(said) => said == number,
        None => false,
    }
}

/// Whether each value is a state.
fn are_states(values: &[Value<'_>]) -> bool
    ensures { result ≡ list_all (λ value. assumed.is_state_value (view value)) values.now }
{
    values
        .iter()
        .all(|value| state_named(word_of(value)).is_some())
}

/// Whether one of the values is the state of the number.
fn has_state(number: u64, values: &[Value<'_>]) -> bool
    ensures { result ≡ list_any (λ value. assumed.is_that_value number (view value)) values.now }
{
    values
        .iter()
        .any(|value| is_that_state(number, word_of(value)))
}

/// Whether the connection has one of some states, or a cause where that isn't known.
pub(crate) fn state_met(text: &[u8], values: &[Value<'_>]) -> Result<bool, RuleKind>
    ensures { result ≡ assumed.state_met text.now (map view values.now) }
{
    if !are_states(values) {
        return Err(RuleKind::CantSay);
    }
    match assumed_state(text) {
        Some(number) => Ok(has_state(number, values)),
        None => Err(RuleKind::NeedsState),
    }
}

/// Whether what is compared is known of packets of a base chain, if there is one.
pub(crate) fn is_known(begin: Option<Base>, fact: Fact) -> bool
    ensures { result ≡ assumed.is_known begin fact }
{
    match fact {
        Fact::Nfproto => true,
        Fact::Interface(way, _) => knows_way(begin, way),
        Fact::State => knows_state(begin),
    }
}

impl Known<'_, '_, '_> {
    ghost use Rattle.std.specs.Prelude.{◌≡◌};
    ghost use Rattle.json.specs.Value.{value_view as view};
    ghost use Rattle.nft_reader.specs.Known.{question_of};
    ghost use Rattle.nft_reader.specs.Assumed as assumed;

    /// Whether a comparison with the right side is true, or a cause where that isn't known.
    pub(crate) fn is_met(
        &self,
        fact: Fact,
        operator: Operator,
        right: &Value<'_>,
    ) -> Result<bool, RuleKind>
        ensures { result ≡ assumed.is_met (question_of self.now) fact operator (view right.now) }
    {
        match fact {
            Fact::Nfproto => {
                let is_ip4 = right.as_str().and_then(is_ip4).ok_or(RuleKind::CantSay)?;
                Ok(is_of(self.asked.family, is_ip4))
            }
            Fact::Interface(way, naming) => {
                if !knows_way(self.begin, way) {
                    return Err(RuleKind::HookInterface);
                }
                let values = elements_of(right).ok_or(RuleKind::CantSay)?;
                interface_met(self.assumed, way, naming, values)
            }
            Fact::State => {
                if !knows_state(self.begin) {
                    return Err(RuleKind::HookState);
                }
                let values = state_values(operator, right).ok_or(RuleKind::CantSay)?;
                state_met(self.assumed, values)
            }
        }
    }
}
