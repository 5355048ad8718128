//! Which of the two walks answers keys.

/// How keys are walked through a table. Both walks answer alike.
#[derive(Clone, Copy)]
pub enum Walk {
    /// Each key is walked for itself.
    Scalar,
    /// Many keys are walked in turns, by vectors.
    Lanes,
}
