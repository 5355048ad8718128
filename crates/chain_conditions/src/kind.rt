//! What answers do with their packets.

ghost use Rattle.std.specs.Prelude.{◌≡◌};
ghost use Rattle.chain_conditions.specs.Kinds.{IsMask, kind_of, masks_of};

/// What an answer does with its packets.
#[derive(Clone, Copy)]
pub enum AnswerKind {
    /// It refuses them: its rules under conditions take part in category 0.
    Refuses,
    /// It accepts them: category 1.
    Accepts,
    /// They end elsewhere, as with a program that decides: category 2.
    Elsewhere,
}

/// The kind of an answer. Past the end of the list an answer ends elsewhere.
fn kind_of(kinds: &[AnswerKind], answer: u32) -> AnswerKind
    ensures { result ≡ kind_of kinds.now answer }
{
    let place = answer as usize;
    if place < kinds.len() {
        kinds[place]
    } else {
        AnswerKind::Elsewhere
    }
}

/// The categories in which rules of an answer take part while a condition is left.
pub(crate) fn mask_of(kinds: &[AnswerKind], answer: u32) -> u32
    ensures is { result ≡ masks_of kinds.now answer }
    ensures lawful { IsMask result }
{
    match kind_of(kinds, answer) {
        AnswerKind::Refuses => 1,
        AnswerKind::Accepts => 2,
        AnswerKind::Elsewhere => 4,
    }
}
