//! The one file that a desk over memory creates, in room that was taken for it.

ghost use Rattle.std.specs.Prelude.{◌≡◌, ◌+◌, ◌≤◌, ◌++◌, length, vec_len, vec_capacity};

use std::alloc::{AllocError, Global};
use std::marker::Model;

/// How many bytes the name of a created file may have.
const MAX_NAME: usize = 255;

/// The created file, once it is there.
#[derive(Drop)]
pub(crate) struct MadeFile {
    there: bool,
    /// Its name, in memory that was taken for [`MAX_NAME`] bytes.
    name: Vec<u8>,
    /// Its bytes, in memory that was taken for `room` bytes.
    bytes: Vec<u8>,
    room: usize,
}

impl Model for MadeFile {
    ghost use Rattle.std.specs.Prelude.{◌≤◌, vec_len, vec_capacity};
    ghost use Rattle.acl_outside.specs.MemFile.{MadeView, max_name};

    ghost Value = { MadeView };

    ghost view = { λ file. record {
      there = file.there;
      name = file.name.items;
      bytes = file.bytes.items;
      room = file.room;
    } };

    ghost invariant = { λ file. (max_name ≤ vec_capacity file.name) ×
        (vec_len file.bytes ≤ file.room) × (file.room ≤ vec_capacity file.bytes) };
}

impl MadeFile {
    ghost use Rattle.std.specs.Prelude.{◌≡◌, ◌-◌, ◌≤◌, [], ◌++◌, length, true, false, IfOk, IsTrue};
    ghost use Rattle.std.specs.Str.{bytes_eq};
    ghost use Rattle.acl_outside.specs.MemFile.{is_made, takes_name};

    /// Room for a file of so many bytes, which isn't there yet.
    pub(crate) fn new(alloc: Global, room: usize) -> Result<MadeFile, AllocError>
        ensures { IfOk result (λ file. file ≡
            record { there = false; name = []; bytes = []; room = room }) }
    {
        Ok(MadeFile {
            there: false,
            name: Vec::with_capacity(alloc, MAX_NAME)?,
            bytes: Vec::with_capacity(alloc, room)?,
            room,
        })
    }

    /// Whether the file is there under this name.
    pub(crate) fn is_named(&self, name: &str) -> bool
        ensures { result ≡ is_made self.now name.now }
    {
        self.there && self.has_name(name)
    }

    /// Whether a file of this name can be created: there is room for its name, and no file of
    /// another name was created before.
    pub(crate) fn takes_name(&self, name: &str) -> bool
        ensures { result ≡ takes_name self.now name.now }
    {
        name.len() <= MAX_NAME && (!self.there || self.has_name(name))
    }

    /// Whether this is the name that it was given last.
    fn has_name(&self, name: &str) -> bool
        ensures { result ≡ bytes_eq self.now.name name.now }
    {
        self.name.as_slice() == name.as_bytes()
    }

    /// Creates the file with no bytes.
    pub(crate) fn create(&mut self, name: &str)
        requires { IsTrue (takes_name self.old name.now) }

        ensures { self.new ≡ record {
          there = true;
          name = name.now;
          bytes = [];
          room =
              self.old.room;
        } }
    {
        self.there = true;
        self.name.clear();
        put_in_room(&mut self.name, name.as_bytes());
        self.bytes.clear();
    }

    /// Writes the piece, for which there is room, at the end.
    pub(crate) fn append(&mut self, piece: &[u8])
        requires { length piece.now ≤ self.old.room - length self.old.bytes }

        ensures { self.new ≡ record self.old { bytes = self.old.bytes ++ piece.now } }
    {
        put_in_room(&mut self.bytes, piece);
    }

    pub(crate) fn bytes(&self) -> &[u8]
        ensures { result.now ≡ self.now.bytes }
    {
        &self.bytes
    }

    /// How many bytes more it may have.
    pub(crate) fn free(&self) -> usize
        ensures { result ≡ self.now.room - length self.now.bytes }
    {
        self.room - self.bytes.len()
    }
}

/// Puts the piece after the bytes, in room that was taken for it.
pub(crate) fn put_in_room(bytes: &mut Vec<u8>, piece: &[u8])
    requires { vec_len bytes.old + length piece.now ≤ vec_capacity bytes.old }

    ensures bytes { bytes.new.items ≡ bytes.old.items ++ piece.now }
    ensures room { vec_capacity bytes.old ≤ vec_capacity bytes.new }
{
    match bytes.extend_from_slice(piece) {
        Ok(()) => {}
        Err(AllocError) => unreachable!(),
    }
}
