//! The packets of which what is compared is an element, and comparisons.

ghost use Rattle.std.specs.Prelude.{◌≡◌, IfOk, option_map};
ghost use Rattle.json.specs.Value.{value_view as view};
ghost use Rattle.nft_reader.specs.Keys as keyed;
ghost use Rattle.nft_reader.specs.Shapes.{all_seen};

use crate::compared::{
    Holders, Left, Operator, Part, Sides, is_negated, is_turned, left_of, sides_of,
};
use crate::comparison::{Comparison, are_ported};
use crate::fault::{RuleKind, Stop};
use crate::known::Known;
use crate::shapes::{items_of, said_by};
use crate::values::{bare_element, part_boxes};
use field_defs::Family;
use json::Value;
use list_chains::Span;
use list_packets::{Caught, Packets, all_packets};
use std::alloc::AllocError;

/// Packets of a protocol.
pub(crate) fn protocol_packets(family: Family, number: u64) -> Packets
    ensures { result ≡ keyed.protocol_packets family number }
{
    let protocol = Span {
        low: number,
        high: number,
    };
    Packets {
        protocol,
        ..all_packets(family)
    }
}

/// The packets that have what is compared.
pub(crate) fn held_packets(family: Family, holders: Holders) -> Packets
    ensures { result ≡ keyed.held_packets family holders }
{
    match holders {
        Holders::Protocol(number) => protocol_packets(family, number),
        Holders::All | Holders::Ported => all_packets(family),
    }
}

/// The parts of what is taken together.
fn concat_of<'v, 'a>(value: &'v Value<'a>) -> Option<&'v [Value<'a>]>
    ensures { option_map all_seen result ≡ keyed.concat_of (view value.now) }
{
    items_of(said_by("concat", value)?)
}

impl<'k, 's, 'a> Known<'k, 's, 'a> {
    ghost use Rattle.std.specs.Prelude.{◌≡◌, ◌∷◌, [], length, map, IfOk};
    ghost use Rattle.json.specs.Value.{value_view as view};
    ghost use Rattle.list_packets.specs.Packets.{all_packets};
    ghost use Rattle.nft_reader.specs.Known.{asked_of, known_of, question_of};
    ghost use Rattle.nft_reader.specs.Keys as keyed;
    ghost use Rattle.nft_reader.specs.Compared.{sides_seen};
    ghost use Rattle.nft_reader.specs.Stops.{Gives, GivesItems, GivesKept, Leaves};
    ghost use Rattle.nft_reader.specs.declared.compared.Left.TheVariants as left;

    /// All packets, or none.
    fn truth_boxes(&self, is_so: bool) -> Result<Vec<Packets>, AllocError>
        ensures { IfOk result
            (λ boxes. boxes.items ≡ keyed.truth_boxes (asked_of self.now).family is_so) }
    {
        let mut boxes = Vec::new(self.alloc);
        if is_so {
            boxes.push(all_packets(self.asked.family))?;
        }
        Ok(boxes)
    }

    /// Whether a thing can be told of packets in some boxes.
    pub(crate) fn is_told(&self, boxes: &[Packets], holders: Holders) -> bool
        ensures { result ≡ keyed.is_told (question_of self.now) boxes.now holders }
    {
        match holders {
            Holders::Ported => self.ported || are_ported(boxes),
            Holders::All | Holders::Protocol(_) => true,
        }
    }

    /// The packets of which one thing is an element, if it can be told of those in some boxes.
    fn thing_boxes(
        &self,
        boxes: &[Packets],
        side: Left,
        value: &Value<'_>,
    ) -> Result<Vec<Packets>, Stop<RuleKind>>
        ensures { GivesItems result
            (keyed.thing_boxes (question_of self.now) boxes.now side (view value.now)) }
    {
        match side {
            Left::Header(part, holders) => {
                if !self.is_told(boxes, holders) {
                    return Err(Stop::Told(RuleKind::CantSay));
                }
                let all = held_packets(self.asked.family, holders);
                let values = std::slice::from_ref(value);
                part_boxes(self.alloc, self.asked.family, all, part, values)
            }
            Left::OtherFamily => Ok(Vec::new(self.alloc)),
            Left::Fact(fact) => {
                Ok(self.truth_boxes(self.is_met(fact, Operator::Equal, value)?)?)
            }
        }
    }

    /// Leaves those of some packets of which one more thing is an element.
    fn take_thing(
        &self,
        caught: &mut Caught,
        key: &Value<'_>,
        value: &Value<'_>,
    ) -> Result<(), Stop<RuleKind>>
        ensures { Leaves result caught.new.kept (keyed.with_thing (question_of self.now)
            caught.old.kept (view key.now) (view value.now)) }
    {
        let side = left_of(self.asked.family, key).ok_or(RuleKind::CantSay)?;
        let more = self.thing_boxes(caught.kept(), side, value)?;
        caught.take(self.alloc, false, &more)?;
        Ok(())
    }

    /// The packets of which each thing is its part of an element.
    fn parts_boxes(
        &self,
        keys: &[Value<'_>],
        values: &[Value<'_>],
    ) -> Result<Caught, Stop<RuleKind>>
        requires { length keys.now ≡ length values.now }
        ensures { GivesKept result (keyed.parts_boxes (question_of self.now)
            (all_packets (asked_of self.now).family ∷ []) (map view keys.now)
            (map view values.now)) }
    {
        let mut caught = Caught::all(self.alloc, self.asked.family)?;
        for place in 0..keys.len() {
            self.take_thing(&mut caught, &keys[place], &values[place])?;
        }
        Ok(caught)
    }

    /// The same of an element that has as many parts.
    fn concat_boxes(
        &self,
        keys: &[Value<'_>],
        values: &[Value<'_>],
    ) -> Result<Caught, Stop<RuleKind>>
        ensures { GivesKept result (keyed.concat_boxes (question_of self.now)
            (map view keys.now) (map view values.now)) }
    {
        if keys.len() != values.len() {
            return Err(Stop::Told(RuleKind::CantSay));
        }
        self.parts_boxes(keys, values)
    }

    /// The packets of which a key is an element: one thing, or several.
    pub(crate) fn key_boxes(
        &self,
        key: &Value<'_>,
        value: &Value<'_>,
    ) -> Result<Caught, Stop<RuleKind>>
        ensures { GivesKept result
            (keyed.key_boxes (question_of self.now) (view key.now) (view value.now)) }
    {
        match concat_of(key) {
            Some(keys) => {
                let values = concat_of(value).ok_or(RuleKind::CantSay)?;
                self.concat_boxes(keys, values)
            }
            None => {
                let values = std::slice::from_ref(value);
                self.concat_boxes(std::slice::from_ref(key), values)
            }
        }
    }

    /// Puts the packets of which a key is an element, which may have a counter and a comment.
    fn put_key(
        &self,
        into: &mut Vec<Packets>,
        key: &Value<'_>,
        element: &Value<'_>,
    ) -> Result<(), Stop<RuleKind>>
        ensures { Leaves result into.new.items (keyed.with_key (question_of self.now)
            (view key.now) into.old.items (view element.now)) }
    {
        let value = bare_element(element).ok_or(RuleKind::CantSay)?;
        let more = self.key_boxes(key, value)?;
        into.extend_from_slice(more.kept())?;
        Ok(())
    }

    /// The packets of which a key is one of some elements.
    fn elements_boxes(
        &self,
        key: &Value<'_>,
        elements: &[Value<'_>],
    ) -> Result<Vec<Packets>, Stop<RuleKind>>
        ensures { GivesItems result
            (keyed.elements_boxes (question_of self.now) (view key.now) (map view elements.now)) }
    {
        let mut boxes = Vec::new(self.alloc);
        for element in elements {
            self.put_key(&mut boxes, key, element)?;
        }
        Ok(boxes)
    }

    /// A comparison of a part of the header.
    fn part_compared(
        &self,
        part: Part,
        holders: Holders,
        operator: Operator,
        right: &Value<'a>,
    ) -> Result<Comparison, Stop<RuleKind>>
        ensures { Gives result (keyed.side_compared (known_of self.now)
            (left.Header part holders) operator (view right.now)) }
    {
        let family = self.asked.family;
        let all = all_packets(family);
        if !self.is_told(&[all], holders) {
            return Err(Stop::Told(RuleKind::CantSay));
        }
        let negated = is_negated(operator).ok_or(RuleKind::CantSay)?;
        let elements = self.elements(false, right)?;
        let boxes = part_boxes(self.alloc, family, all, part, elements)?;
        Ok(Comparison { negated, boxes })
    }

    /// A comparison by its left side.
    fn side_compared(
        &self,
        side: Left,
        operator: Operator,
        right: &Value<'a>,
    ) -> Result<Comparison, Stop<RuleKind>>
        ensures { Gives result
            (keyed.side_compared (known_of self.now) side operator (view right.now)) }
    {
        let boxes = match side {
            Left::Header(part, holders) => {
                return self.part_compared(part, holders, operator, right);
            }
            Left::OtherFamily => Vec::new(self.alloc),
            Left::Fact(fact) => {
                let turned = is_turned(fact, operator).ok_or(RuleKind::CantSay)?;
                self.truth_boxes(self.is_met(fact, operator, right)? != turned)?
            }
        };
        Ok(Comparison {
            negated: false,
            boxes,
        })
    }

    /// A comparison of several things together, by the elements of the right side.
    fn together_compared(
        &self,
        key: &Value<'_>,
        right: &Value<'a>,
        negated: bool,
    ) -> Result<Comparison, Stop<RuleKind>>
        ensures { Gives result
            (keyed.together_compared (known_of self.now) (view key.now) (view right.now) negated) }
    {
        if negated {
            return Err(Stop::Told(RuleKind::CantSay));
        }
        let elements = self.elements(false, right)?;
        let boxes = self.elements_boxes(key, elements)?;
        Ok(Comparison { negated, boxes })
    }

    /// A comparison by its sides, of one thing or of several together.
    fn sides_compared(&self, sides: Sides<'_, 'a>) -> Result<Comparison, Stop<RuleKind>>
        ensures { Gives result (keyed.sides_compared (known_of self.now) (sides_seen sides.entry)) }
    {
        let Sides {
            left,
            operator,
            right,
        } = sides;
        if concat_of(left).is_some() {
            let negated = is_negated(operator).ok_or(RuleKind::CantSay)?;
            return self.together_compared(left, right, negated);
        }
        let side = left_of(self.asked.family, left).ok_or(RuleKind::CantSay)?;
        self.side_compared(side, operator, right)
    }

    /// A comparison.
    pub(crate) fn compared(&self, said: &Value<'a>) -> Result<Comparison, Stop<RuleKind>>
        ensures { Gives result (keyed.compared (known_of self.now) (view said.now)) }
    {
        self.sides_compared(sides_of(said).ok_or(RuleKind::CantSay)?)
    }
}
