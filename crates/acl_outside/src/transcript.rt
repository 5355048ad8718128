//! What the outside was asked and what it answered. Only clauses read it, and it takes no memory.

ghost use Rattle.std.specs.Prelude.{◌≡◌, List, [], ◌∷◌};
ghost use Rattle.std.specs.Borrow.{ftrue};
ghost use Rattle.acl_outside.specs.Note.{Note, note_of};

use std::marker::{Model, PhantomData};

/// The kind of a note: a file was opened.
const OPENED: u64 = 0;

/// A file could not be opened.
const NOT_OPENED: u64 = 1;

/// A read gave bytes, or none at the end of the file.
const GIVEN: u64 = 2;

/// A read failed.
const FAILED: u64 = 3;

/// A sink took bytes.
const TAKEN: u64 = 4;

/// A file was created.
const CREATED: u64 = 5;

/// A file could not be created.
const NOT_CREATED: u64 = 6;

/// A write took bytes.
const WRITTEN: u64 = 7;

/// A write failed.
const NOT_WRITTEN: u64 = 8;

/// The created file was finished.
const FINISHED: u64 = 9;

/// The created file could not be finished.
const NOT_FINISHED: u64 = 10;

/// The notes so far, newest first.
#[derive(Drop)]
pub(crate) struct Transcript {
    marker: PhantomData<u8>,
    pub ghost notes: { List Note },
}

impl Model for Transcript {
    ghost also_owns = { λ _. ftrue };
}

impl Transcript {
    pub(crate) fn new() -> Transcript
        ensures { result.notes ≡ [] }
    {
        Transcript {
            marker: PhantomData,
        }
    }

    /// Adds a note, which has no trace when the program runs.
    fn note(&mut self, _numbers: &[u64], _bytes: &[u8])
        ensures { self.new.notes ≡ note_of _numbers.now _bytes.now ∷ self.old.notes }
    {}
}

impl Transcript {
    ghost use Rattle.std.specs.Prelude.{◌≡◌, ◌∷◌, ◌++◌, true, false, Some, None};
    ghost use Rattle.acl_outside.specs.Desk.{Opening, Reading, Creating, Writing, Finishing};
    ghost use Rattle.acl_outside.specs.Answers.{answers_of, taken_of};

    pub(crate) fn note_opened(&mut self, name: &str)
        ensures { answers_of self.new.notes ≡ Opening name.now true ∷ answers_of self.old.notes }
    {
        self.note(&[OPENED], name.as_bytes());
    }

    pub(crate) fn note_not_opened(&mut self, name: &str)
        ensures { answers_of self.new.notes ≡ Opening name.now false ∷ answers_of self.old.notes }
    {
        self.note(&[NOT_OPENED], name.as_bytes());
    }

    pub(crate) fn note_given(&mut self, room: usize, bytes: &[u8])
        ensures { answers_of self.new.notes ≡ Reading room (Some bytes.now)
            ∷ answers_of self.old.notes }
    {
        self.note(&[GIVEN, room as u64], bytes);
    }

    pub(crate) fn note_failed(&mut self, room: usize)
        ensures { answers_of self.new.notes ≡ Reading room None ∷ answers_of self.old.notes }
    {
        self.note(&[FAILED, room as u64], &[]);
    }

    pub(crate) fn note_created(&mut self, name: &str)
        ensures { answers_of self.new.notes ≡ Creating name.now true ∷ answers_of self.old.notes }
    {
        self.note(&[CREATED], name.as_bytes());
    }

    pub(crate) fn note_not_created(&mut self, name: &str)
        ensures { answers_of self.new.notes ≡ Creating name.now false ∷ answers_of self.old.notes }
    {
        self.note(&[NOT_CREATED], name.as_bytes());
    }

    pub(crate) fn note_written(&mut self, bytes: &[u8])
        ensures { answers_of self.new.notes ≡ Writing (Some bytes.now)
            ∷ answers_of self.old.notes }
    {
        self.note(&[WRITTEN], bytes);
    }

    pub(crate) fn note_not_written(&mut self)
        ensures { answers_of self.new.notes ≡ Writing None ∷ answers_of self.old.notes }
    {
        self.note(&[NOT_WRITTEN], &[]);
    }

    pub(crate) fn note_finished(&mut self)
        ensures { answers_of self.new.notes ≡ Finishing true ∷ answers_of self.old.notes }
    {
        self.note(&[FINISHED], &[]);
    }

    pub(crate) fn note_not_finished(&mut self)
        ensures { answers_of self.new.notes ≡ Finishing false ∷ answers_of self.old.notes }
    {
        self.note(&[NOT_FINISHED], &[]);
    }

    pub(crate) fn note_taken(&mut self, bytes: &[u8])
        ensures { taken_of self.new.notes ≡ taken_of self.old.notes ++ bytes.now }
    {
        self.note(&[TAKEN], bytes);
    }
}
