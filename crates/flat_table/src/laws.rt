//! Laws of sound tables and of walks, over their definitions alone. They run no code.

ghost use Rattle.flat_table.specs.Laws.{SoundnessIsEach, WalksAreBounded};
ghost use Rattle.flat_table.specs.Laws.{WalksGoStepByStep, WalksStay};

/// Parts have no first fault exactly where they fit together and every root and word is sound.
pub fn soundness_is_of_every_root_and_word()
    ensures { SoundnessIsEach }
{}

/// Each walk through a sound table stays in it, whatever the key.
pub fn walks_stay()
    ensures { WalksStay }
{}

/// A walk is the word that stands after each of its bytes, one after the other.
pub fn walks_go_step_by_step()
    ensures { WalksGoStepByStep }
{}

/// A key takes at most one transition for each trie and byte, and so does each key of a batch.
pub fn walks_are_bounded()
    ensures { WalksAreBounded }
{}
