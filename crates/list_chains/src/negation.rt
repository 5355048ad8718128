//! The numbers beside a span, for rules that are negated.

ghost use Rattle.std.specs.Prelude.{◌≡◌, IfOk};
ghost use Rattle.list_chains.specs.DepthLaws.{above, below, others};

use crate::span::Span;
use std::alloc::{AllocError, Global};

/// The numbers up to the greatest of a field that aren't in a span: at most two spans, the lower
/// first. A rule for each of them is one rule for all. It takes the memory of two spans.
///
/// As masks they are at most one prefix for each bit that the span's own prefix has.
pub fn others(alloc: Global, greatest: u64, span: Span) -> Result<Vec<Span>, AllocError>
    ensures { IfOk result (λ spans. spans.items ≡ others greatest span) }
{
    let mut spans = Vec::new(alloc);
    if span.low > 0 {
        spans.push(Span {
            low: 0,
            high: span.low - 1,
        })?;
    }
    if span.high < greatest {
        spans.push(Span {
            low: span.high + 1,
            high: greatest,
        })?;
    }
    Ok(spans)
}
