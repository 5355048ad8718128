//! A law of reports, over their definitions alone. It runs no code.

ghost use Rattle.capture_report.specs.Bound.{TransitionsAreBounded};

/// A report tells at most a transition for each trie and byte of the key of each packet, whatever
/// the bytes of the capture.
pub fn transitions_are_bounded()
    ensures { TransitionsAreBounded }
{}
