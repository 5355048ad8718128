//! Where a program puts its output.

ghost use Rattle.acl_outside.specs.Sink.{SinkView, PutsPrefix};

use crate::desk::Failed;

/// Takes bytes, one piece after the other.
///
/// A sink begins with nothing taken and its count 0. No call takes memory where the implementation
/// doesn't say so.
pub trait Sink {
    /// What the sink shows of itself: what it took, what was written, where it tells that, and its
    /// count of faults.
    ghost view: { Self → SinkView };

    /// Takes a prefix of the piece, and says how many bytes it has: at least one, but for an empty
    /// piece.
    ///
    /// `Failed`: nothing was taken.
    fn put(&mut self, piece: &[u8]) -> Result<usize, Failed>
        ensures { PutsPrefix piece.now (view self.old) (view self.new) result };
}
