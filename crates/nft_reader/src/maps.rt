//! Maps to verdicts: what becomes of the packets of each element.

ghost use Rattle.std.specs.Prelude.{◌≡◌};
ghost use Rattle.std.specs.List.{list_any};
ghost use Rattle.json.specs.Value.{value_view as view};
ghost use Rattle.nft_reader.specs.Maps as maps;

use crate::assumed::is_known;
use crate::compared::{Left, left_of};
use crate::comparison::{Comparison, caught_by};
use crate::fault::{RuleKind, Stop};
use crate::keys::held_packets;
use crate::known::{Branch, Known, Outcome};
use crate::shapes::{len_of, only, pair_of};
use crate::values::bare_element;
use json::Value;
use list_chains::Span;
use list_packets::{AddressSpans, Packets, all_packets};
use std::alloc::AllocError;
use std::marker::Model;

/// Whether spans have a number in common.
fn touches(one: Span, other: Span) -> bool
    ensures { result ≡ maps.touches one other }
{
    one.low <= other.high && other.low <= one.high
}

/// Whether both halves of addresses have.
fn touch(one: AddressSpans, other: AddressSpans) -> bool
    ensures { result ≡ maps.touch one other }
{
    touches(one.high, other.high) && touches(one.low, other.low)
}

/// Whether boxes have packets in common.
fn overlaps(one: Packets, other: Packets) -> bool
    ensures { result ≡ maps.overlaps one other }
{
    touches(one.protocol, other.protocol)
        && touch(one.source, other.source)
        && touch(one.destination, other.destination)
        && touches(one.source_ports, other.source_ports)
        && touches(one.destination_ports, other.destination_ports)
}

/// Whether a box has packets in common with others.
fn overlaps_one(one: Packets, others: &[Packets]) -> bool
    ensures { result ≡ list_any (maps.overlaps one) others.now }
{
    others.iter().any(|other| overlaps(one, *other))
}

/// Whether boxes have packets in common with others.
fn any_overlaps(ones: &[Packets], others: &[Packets]) -> bool
    ensures { result ≡ maps.any_overlaps ones.now others.now }
{
    ones.iter().any(|one| overlaps_one(*one, others))
}

/// The element that stands for all others.
fn is_rest(value: &Value<'_>) -> bool
    ensures { result ≡ maps.is_rest (view value.now) }
{
    match value.as_str() {
        Some(text) => text == "*",
        None => false,
    }
}

/// The elements so far: what becomes of their packets, and which these are. Contracts see a record
/// of both lists.
#[derive(Drop)]
pub(crate) struct Looking {
    pub(crate) branches: Vec<Branch>,
    boxes: Vec<Packets>,
}

impl Model for Looking {
    ghost use Rattle.nft_reader.specs.Maps.{Looked};

    ghost Value = { Looked };

    ghost view = { λ looking. record {
      branches = looking.branches.items;
      boxes = looking.boxes.items;
    } };
}

impl<'k, 's, 'a> Known<'k, 's, 'a> {
    ghost use Rattle.std.specs.Prelude.{◌≡◌, ◌++◌, ◌∷◌, [], map, OnOk};
    ghost use Rattle.json.specs.Value.{value_view as view};
    ghost use Rattle.nft_reader.specs.Known.{asked_of, known_of, question_of};
    ghost use Rattle.nft_reader.specs.Maps as maps;
    ghost use Rattle.nft_reader.specs.Stops.{Gives, Leaves, folded};

    /// The packets that have what is compared, if that is said.
    fn having(&self, side: Left) -> Option<Packets>
        ensures { result ≡ maps.having (question_of self.now) side }
    {
        let all = all_packets(self.asked.family);
        match side {
            Left::Header(_, holders) => self
                .is_told(&[all], holders)
                .then_some(held_packets(self.asked.family, holders)),
            Left::OtherFamily => None,
            Left::Fact(fact) => is_known(self.begin, fact).then_some(all),
        }
    }

    /// The packets that have one thing; of several it isn't said.
    fn rest_box(&self, key: &Value<'_>) -> Option<Packets>
        ensures { result ≡ maps.rest_box (question_of self.now) (view key.now) }
    {
        self.having(left_of(self.asked.family, key)?)
    }

    /// Puts what becomes of the packets of some boxes, but for others, unless they go on.
    fn put_branch(
        &self,
        into: &mut Vec<Branch>,
        compared: &[Comparison],
        boxes: &[Packets],
        but: &[Packets],
        does: Option<Outcome>,
    ) -> Result<(), AllocError>
        ensures { OnOk result (into.new.items ≡ into.old.items ++ maps.branch_list
            (asked_of self.now).family compared.now boxes.now but.now does) }
    {
        let Some(does) = does else {
            return Ok(());
        };
        let mut caught = caught_by(self.alloc, self.asked.family, compared)?;
        caught.take(self.alloc, false, boxes)?;
        caught.take(self.alloc, true, but)?;
        into.push(Branch { caught, does })?;
        Ok(())
    }

    /// An element whose packets are no other's.
    fn look_apart(
        &self,
        looking: &mut Looking,
        compared: &[Comparison],
        boxes: &[Packets],
        does: Option<Outcome>,
    ) -> Result<(), Stop<RuleKind>>
        ensures { Leaves result looking.new (maps.with_apart (asked_of self.now).family
            compared.now does looking.old boxes.now) }
    {
        if any_overlaps(boxes, &looking.boxes) {
            return Err(Stop::Told(RuleKind::CantSay));
        }
        self.put_branch(&mut looking.branches, compared, boxes, &[], does)?;
        looking.boxes.extend_from_slice(boxes)?;
        Ok(())
    }

    /// An element for all packets that are of no element so far.
    fn look_beside(
        &self,
        looking: &mut Looking,
        compared: &[Comparison],
        packets: Packets,
        does: Option<Outcome>,
    ) -> Result<(), AllocError>
        ensures { OnOk result (looking.new ≡ maps.one_more (asked_of self.now).family
            compared.now (packets ∷ []) looking.old.boxes does looking.old) }
    {
        let Looking { branches, boxes } = looking;
        self.put_branch(branches, compared, &[packets], boxes, does)?;
        boxes.push(packets)?;
        Ok(())
    }

    /// An element: the packets of its value, or of no value so far.
    fn look(
        &self,
        looking: &mut Looking,
        key: &Value<'_>,
        compared: &[Comparison],
        value: &Value<'_>,
        does: Option<Outcome>,
    ) -> Result<(), Stop<RuleKind>>
        ensures { Leaves result looking.new (maps.with_looked (question_of self.now)
            (view key.now) compared.now (view value.now) looking.old does) }
    {
        if is_rest(value) {
            let packets = self.rest_box(key).ok_or(RuleKind::CantSay)?;
            self.look_beside(looking, compared, packets, does)?;
            return Ok(());
        }
        let caught = self.key_boxes(key, value)?;
        self.look_apart(looking, compared, caught.kept(), does)
    }

    /// An element and its verdict.
    fn look_at(
        &self,
        looking: &mut Looking,
        key: &Value<'_>,
        compared: &[Comparison],
        element: &Value<'_>,
    ) -> Result<(), Stop<RuleKind>>
        ensures { Leaves result looking.new (maps.with_element (known_of self.now) (view key.now)
            compared.now looking.old (view element.now)) }
    {
        let (value, verdict) = pair_of(element).ok_or(RuleKind::CantSay)?;
        let value = bare_element(value).ok_or(RuleKind::CantSay)?;
        let (name, said) = only(verdict).ok_or(RuleKind::BadStatement)?;
        let does = self.outcome_of(name, said)?;
        self.look(looking, key, compared, value, does)
    }

    /// All elements of a map.
    fn look_at_all(
        &self,
        key: &Value<'_>,
        compared: &[Comparison],
        elements: &[Value<'_>],
    ) -> Result<Looking, Stop<RuleKind>>
        ensures { Gives result
            (folded (maps.with_element (known_of self.now) (view key.now) compared.now)
            maps.none_looked (map view elements.now)) }
    {
        let mut looking = Looking {
            branches: Vec::new(self.alloc),
            boxes: Vec::new(self.alloc),
        };
        for element in elements {
            self.look_at(&mut looking, key, compared, element)?;
        }
        Ok(looking)
    }

    /// What becomes of the packets of a map's elements.
    pub(crate) fn looked_up(
        &self,
        said: &Value<'a>,
        compared: &[Comparison],
    ) -> Result<Looking, Stop<RuleKind>>
        ensures { Gives result (maps.looked_up (known_of self.now) (view said.now) compared.now) }
    {
        if len_of(said) != 2 {
            return Err(Stop::Told(RuleKind::BadStatement));
        }
        let key = said.get("key").ok_or(RuleKind::CantSay)?;
        let data = said.get("data").ok_or(RuleKind::CantSay)?;
        let elements = self.elements(true, data)?;
        self.look_at_all(key, compared, elements)
    }
}
