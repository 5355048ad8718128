//! What a rule compares, and the packets that it catches by that.

ghost use Rattle.std.specs.Prelude.{◌≡◌, IfOk};
ghost use Rattle.nft_reader.specs.Comparisons as comparisons;

use field_defs::Family;
use list_chains::Span;
use list_packets::{Caught, Packets};
use std::alloc::{AllocError, Global};
use std::marker::Model;

/// A comparison: packets lie in one of its boxes, or after `!=` in none. Contracts see a record of
/// both.
#[derive(Drop)]
pub(crate) struct Comparison {
    pub(crate) negated: bool,
    pub(crate) boxes: Vec<Packets>,
}

impl Model for Comparison {
    ghost use Rattle.nft_reader.specs.Comparisons.{ComparedBoxes};

    ghost Value = { ComparedBoxes };

    ghost view = { λ comparison. record {
      negated = comparison.negated;
      boxes = comparison.boxes.items;
    } };
}

/// The number of protocols, less one.
const LAST: u64 = 255;

/// Whether a span of protocols is neither that of all nor that of one alone.
fn is_other(number: u64, span: Span) -> bool
    ensures { result ≡ comparisons.is_other number span }
{
    !(span.low == 0 && span.high == LAST) && !(span.low == number && span.high == number)
}

/// Whether the protocols of one of some boxes are so.
fn has_other(number: u64, boxes: &[Packets]) -> bool
    ensures { result ≡ comparisons.has_other number boxes.now }
{
    boxes
        .iter()
        .any(|packets| is_other(number, packets.protocol))
}

/// Whether a span is that of a protocol whose ports keys have.
fn is_ported(span: Span) -> bool
    ensures { result ≡ comparisons.is_ported span }
{
    span.low == span.high && (span.low == 6 || span.low == 17 || span.low == 132)
}

/// Whether each of some boxes has one.
pub(crate) fn are_ported(boxes: &[Packets]) -> bool
    ensures { result ≡ comparisons.are_ported boxes.now }
{
    boxes.iter().all(|packets| is_ported(packets.protocol))
}

impl Comparison {
    ghost use Rattle.std.specs.Prelude.{◌≡◌, OnOk};
    ghost use Rattle.nft_reader.specs.Comparisons as comparisons;

    /// Whether it names protocols, of which one isn't this one.
    pub(crate) fn names_other(&self, number: u64) -> bool
        ensures { result ≡ comparisons.names_other number self.now }
    {
        !self.negated && has_other(number, &self.boxes)
    }

    /// Whether it leaves no packets of other protocols than those with ports.
    pub(crate) fn leaves_ported(&self) -> bool
        ensures { result ≡ comparisons.leaves_ported self.now }
    {
        !self.negated && are_ported(&self.boxes)
    }

    /// Leaves of some packets those that it is true of.
    fn narrow(&self, alloc: Global, caught: &mut Caught) -> Result<(), AllocError>
        ensures { OnOk result (caught.new ≡ comparisons.narrowed caught.old self.now) }
    {
        caught.take(alloc, self.negated, &self.boxes)
    }
}

/// The packets of a family that some comparisons are true of.
pub(crate) fn caught_by(
    alloc: Global,
    family: Family,
    compared: &[Comparison],
) -> Result<Caught, AllocError>
    ensures { IfOk result (λ caught. caught ≡ comparisons.caught_by family compared.now) }
{
    let mut caught = Caught::all(alloc, family)?;
    for comparison in compared {
        comparison.narrow(alloc, &mut caught)?;
    }
    Ok(caught)
}
