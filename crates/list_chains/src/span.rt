//! Boxes: for each field of a layout the numbers from one to another.

ghost use Rattle.std.specs.Prelude.{◌≡◌, IfOk, IsTrue};
ghost use Rattle.field_defs.specs.FieldBounds.{is_size};
ghost use Rattle.list_chains.specs.Spans.{common, lies_in, box_meet, is_inside, whole_span};
ghost use Rattle.list_chains.specs.Spans.{IsFieldSpan, whole_box};
ghost use Rattle.std.specs.List.{AllZip};

use field_defs::{FieldDef, Layout};
use std::alloc::{AllocError, Global};
use std::marker::Model;

/// The numbers from the low one to the high one, both included. None is in it if the low one is
/// above.
#[derive(Clone, Copy)]
pub struct Span {
    pub low: u64,
    pub high: u64,
}

/// A span for each field of a layout, in the order of the fields. Contracts see the list.
#[derive(Drop)]
pub struct SpanBox {
    spans: Vec<Span>,
}

impl Model for SpanBox {
    ghost use Rattle.std.specs.Prelude.{List};
    ghost use Rattle.list_chains.specs.declared.span.Span.{Span};

    ghost Value = { List Span };

    ghost view = { λ it. it.spans.items };
}

impl SpanBox {
    /// The box of these spans. It takes the memory of a copy.
    pub fn of(alloc: Global, spans: &[Span]) -> Result<SpanBox, AllocError>
        ensures { IfOk result (λ it. it ≡ spans.now) }
    {
        let mut kept = Vec::new(alloc);
        kept.extend_from_slice(spans)?;
        Ok(SpanBox { spans: kept })
    }

    /// The box of all keys of the layout. It takes the memory of a span for each field.
    pub fn whole(alloc: Global, layout: &Layout) -> Result<SpanBox, AllocError>
        ensures is { IfOk result (λ it. it ≡ whole_box layout.now) }
        ensures fits { IfOk result (AllZip IsFieldSpan layout.now) }
    {
        let mut spans = Vec::new(alloc);
        for def in layout.fields() {
            spans.push(whole_span(def))?;
        }
        Ok(SpanBox { spans })
    }

    /// The spans, in the order of the fields.
    pub fn spans(&self) -> &[Span]
        ensures { result.now ≡ self.now }
    {
        self.spans.as_slice()
    }

    /// What two boxes have in common, or None where that is no key. It takes the memory of a box.
    pub fn meet(&self, alloc: Global, other: &SpanBox) -> Result<Option<SpanBox>, AllocError>
        ensures { IfOk result (λ met. met ≡ box_meet self.now other.now) }
    {
        meet_spans(alloc, self.spans(), other.spans())
    }

    /// Whether each span lies within the other box's span for its field. It takes no memory.
    pub fn is_inside(&self, other: &SpanBox) -> bool
        ensures { result ≡ is_inside self.now other.now }
    {
        are_inside(self.spans(), other.spans())
    }
}

/// All numbers of a field.
fn whole_span(def: &FieldDef) -> Span
    requires { IsTrue (is_size def.now.size) }
    ensures { result ≡ whole_span def.now }
{
    let high = match def.size {
        1 => 0xFF,
        2 => 0xFFFF,
        4 => 0xFFFF_FFFF,
        _ => u64::MAX,
    };
    Span { low: 0, high }
}

/// The numbers of both spans, which may be none. It takes no memory.
pub fn common(one: Span, other: Span) -> Span
    ensures { result ≡ common one other }
{
    Span {
        low: if one.low <= other.low {
            other.low
        } else {
            one.low
        },
        high: if one.high <= other.high {
            one.high
        } else {
            other.high
        },
    }
}

/// The box of what the spans have in common, place by place.
fn meet_spans(alloc: Global, ones: &[Span], others: &[Span]) -> Result<Option<SpanBox>, AllocError>
    ensures { IfOk result (λ met. met ≡ box_meet ones.now others.now) }
{
    if ones.len() != others.len() {
        return Ok(None);
    }
    let mut spans = Vec::new(alloc);
    for place in 0..ones.len() {
        let span = common(ones[place], others[place]);
        if span.low > span.high {
            return Ok(None);
        }
        spans.push(span)?;
    }
    Ok(Some(SpanBox { spans }))
}

/// Whether the one span lies within the other.
fn lies_in(one: Span, other: Span) -> bool
    ensures { result ≡ lies_in one other }
{
    other.low <= one.low && one.high <= other.high
}

/// Whether each span lies within the other of its place.
fn are_inside(ones: &[Span], others: &[Span]) -> bool
    ensures { result ≡ is_inside ones.now others.now }
{
    if ones.len() != others.len() {
        return false;
    }
    for place in 0..ones.len() {
        if !lies_in(ones[place], others[place]) {
            return false;
        }
    }
    true
}
