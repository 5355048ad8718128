//! Looking into values of JSON.
//!
//! Each object is asked for its members by name, and for how many it has, so that none is passed
//! over. Nothing here takes memory.

ghost use Rattle.std.specs.Prelude.{◌≡◌, ◌≤◌, map, IfSome, option_map};
ghost use Rattle.json.specs.Value.{value_view as view};
ghost use Rattle.nft_reader.specs.Shapes as shapes;

use json::Value;
use text_scan::digits_value;

/// How many members a value has. One that is no object has none.
pub(crate) fn len_of(value: &Value<'_>) -> usize
    ensures { result ≡ shapes.len_of (view value.now) }
{
    match value {
        Value::Object(members) => members.len(),
        _ => 0,
    }
}

/// The name and the value of the only member of an object.
pub(crate) fn only<'v, 'a>(value: &'v Value<'a>) -> Option<(&'a str, &'v Value<'a>)>
    ensures { option_map shapes.member_seen result ≡ shapes.only (view value.now) }
{
    match value {
        Value::Object(members) => {
            if members.len() != 1 {
                return None;
            }
            let (name, said) = &members[0];
            Some((*name, said))
        }
        _ => None,
    }
}

/// What the only member of an object says, if it has the name.
pub(crate) fn said_by<'v, 'a>(name: &str, value: &'v Value<'a>) -> Option<&'v Value<'a>>
    ensures { option_map shapes.seen result ≡ shapes.said_by name.now (view value.now) }
{
    let (other, said) = only(value)?;
    (other == name).then_some(said)
}

/// The items of an array.
pub(crate) fn items_of<'v, 'a>(value: &'v Value<'a>) -> Option<&'v [Value<'a>]>
    ensures { option_map shapes.all_seen result ≡ shapes.items_of (view value.now) }
{
    match value {
        Value::Array(items) => Some(items.as_slice()),
        _ => None,
    }
}

/// The items of a member that is an array.
pub(crate) fn items_in<'v, 'a>(key: &str, value: &'v Value<'a>) -> Option<&'v [Value<'a>]>
    ensures { option_map shapes.all_seen result ≡ shapes.items_in key.now (view value.now) }
{
    items_of(value.get(key)?)
}

/// The items of an array of two.
pub(crate) fn pair_of<'v, 'a>(value: &'v Value<'a>) -> Option<(&'v Value<'a>, &'v Value<'a>)>
    ensures { option_map shapes.both_seen result ≡ shapes.pair_of (view value.now) }
{
    match items_of(value)? {
        [one, other] => Some((one, other)),
        _ => None,
    }
}

/// The items of an array, or else the value itself.
pub(crate) fn listed_values<'v, 'a>(value: &'v Value<'a>) -> &'v [Value<'a>]
    ensures { map view result.now ≡ shapes.listed_values (view value.now) }
{
    let Some(values) = items_of(value) else {
        return std::slice::from_ref(value);
    };
    values
}

/// The text of a member that is a string.
pub(crate) fn text_in<'a>(key: &str, value: &Value<'a>) -> Option<&'a str>
    ensures { option_map shapes.text_seen result ≡ shapes.text_in key.now (view value.now) }
{
    value.get(key)?.as_str()
}

/// How many members of a name there are.
pub(crate) fn present(key: &str, value: &Value<'_>) -> usize
    ensures present { result ≡ shapes.present key.now (view value.now) }
    ensures bound { result ≤ 1 }
{
    usize::from(value.get(key).is_some())
}

/// The number that digits spell, at most so great.
pub(crate) fn decimal(text: &[u8], greatest: u64) -> Option<u64>
    ensures number { result ≡ shapes.decimal_of greatest text.now }
    ensures bound { IfSome result (λ number. number ≤ greatest) }
{
    let number = digits_value(text, 10)?;
    (number <= greatest).then_some(number)
}

/// A value that is a number without sign, point and exponent, at most so great.
pub(crate) fn number_of(value: &Value<'_>, greatest: u64) -> Option<u64>
    ensures number { result ≡ shapes.number_of greatest (view value.now) }
    ensures bound { IfSome result (λ number. number ≤ greatest) }
{
    decimal(value.as_number()?.as_bytes(), greatest)
}

/// The number of such a member.
pub(crate) fn number_in(key: &str, value: &Value<'_>, greatest: u64) -> Option<u64>
    ensures number { result ≡ shapes.number_in greatest key.now (view value.now) }
    ensures bound { IfSome result (λ number. number ≤ greatest) }
{
    number_of(value.get(key)?, greatest)
}
