//! A desk over the files of the system.

ghost use Rattle.std.specs.Prelude.{◌≡◌, ◌≤◌, ◌⊎◌, [], Ok, length, take, IfOk, OnErr};
ghost use Rattle.std.specs.Io.KnownBytes.{Consumes, IsAtEnd, Keeps, prepend_known};

use crate::desk::{Desk, Failed};
use crate::read_buffer::{BUFFER_SIZE, ReadBuffer};
use crate::std_sink::write_once;
use crate::transcript::Transcript;
use std::fs;
use std::fs::OpenFile;
use std::io::Read;
use std::marker::Model;
use std::rt::Files;

/// Files of the system, of which it tells nothing. None of its calls takes memory.
///
/// It reads through a buffer of its own of 32 KiB, or straight into a slice that is as large, so
/// that reading a file takes one call of the system for each 32 KiB or for each slice, and one for
/// the end, where the system gives as much at a time. A read that is interrupted before it gives a
/// byte is made again. Every opening that fails is a read fault, also where the file isn't there. A
/// folder can be opened, and reading it is a fault.
///
/// Each write is one call of the system, so join what belongs together before it is written. A
/// write that is interrupted before it takes a byte is made again, and one that takes no byte of a
/// piece has failed. A finish asks the system to keep the file, and fails where it can't say that
/// it does, as of a pipe.
///
/// Its counts of faults stand still at 2^64 - 1.
/// Source: POSIX.1-2017, `open`, `read`, `write` and `fsync`.
#[derive(Drop)]
pub struct StdDesk<'a, R: Files> {
    rt: &'a R,
    opened: Option<R::File>,
    /// What was read of the opened file, and not given yet.
    buffer: ReadBuffer,
    /// The created file, while it isn't finished.
    created: Option<R::File>,
    read_faults: u64,
    write_faults: u64,
    transcript: Transcript,
}

impl<'a, R: Files> Model for StdDesk<'a, R> {
    ghost use Rattle.std.specs.Prelude.{is_some, option_and_then};
    ghost use Rattle.std.specs.Io.KnownBytes.{prepend_known};
    ghost use Rattle.acl_outside.specs.Answers.{answers_of};
    ghost use Rattle.acl_outside.specs.System.{StdDeskView};

    ghost Value = { StdDeskView };

    ghost view = { λ desk. record {
      held = desk.buffer;
      remaining = option_and_then (λ file. prepend_known desk.buffer (R.File.remaining file))
          desk.opened;
      contents = option_and_then (λ file. R.File.contents file) desk.created;
      answers = answers_of desk.transcript.notes;
      reading = is_some desk.opened;
      writing = is_some desk.created;
      read_faults = desk.read_faults;
      write_faults = desk.write_faults;
    } };
}

impl<'a, R: Files> StdDesk<'a, R> {
    ghost use Rattle.std.specs.Prelude.{◌≡◌, [], None, false};

    /// A desk over the files that the runtime opens. It takes no memory.
    pub fn new(rt: &'a R) -> StdDesk<'a, R>
        ensures { result ≡ record {
          held = [];
          remaining = None;
          contents = None;
          answers = [];
          reading = false;
          writing = false;
          read_faults = 0;
          write_faults = 0;
        } }
    {
        StdDesk {
            rt,
            opened: None,
            buffer: ReadBuffer::new(),
            created: None,
            read_faults: 0,
            write_faults: 0,
            transcript: Transcript::new(),
        }
    }
}

impl<'a, R: Files> StdDesk<'a, R> {
    ghost use Rattle.std.specs.Prelude.{◌≡◌, ◌⊎◌, [], Ok, is_ok, take, IsTrue, IfOk, OnErr, if◌then◌else◌};
    ghost use Rattle.std.specs.Io.KnownBytes.{Consumes, IsAtEnd, Keeps};
    ghost use Rattle.acl_outside.specs.Fault.{next_count};
    ghost use Rattle.acl_outside.specs.Desk.{ReadsInto};
    ghost use Rattle.acl_outside.specs.System.{shown_std_desk};

    /// Reads as [`read`](Desk::read) does, also where fewer bytes are held than are asked for.
    #[inline(never)]
    fn read_more(&mut self, into: &mut [u8]) -> Result<usize, Failed>
        requires { IsTrue self.old.reading }

        ensures reads { ReadsInto into.old into.new (shown_std_desk self.old)
            (shown_std_desk self.new) result }

        // The bytes given are the next of the file, also across the buffer, and no byte of it is
        // lost.
        ensures next { IfOk result (λ count. Consumes self.old.remaining self.new.remaining
            (take count into.new)) }
        ensures at_end { result ≡ Ok 0 → (into.old ≡ []) ⊎ IsAtEnd self.new.remaining }
        ensures kept { OnErr result (Keeps self.old.remaining self.new.remaining) }
        // Each failure is a read fault, and nothing else is.
        ensures read_faults { self.new.read_faults ≡
            (if is_ok result then self.old.read_faults else next_count self.old.read_faults) }
    {
        let Some(file) = &mut self.opened else {
            unreachable!()
        };
        match read_buffered(file, &mut self.buffer, into) {
            Ok(count) => {
                self.transcript.note_given(into.len(), &into[..count]);
                Ok(count)
            }
            Err(Failed) => {
                self.read_faults = self.read_faults.saturating_add(1);
                self.transcript.note_failed(into.len());
                Err(Failed)
            }
        }
    }
}

impl<'a, R: Files> Desk for StdDesk<'a, R> {
    ghost use Rattle.std.specs.Prelude.{◌≡◌, ◌⊎◌, [], Ok, is_ok, take, IsTrue, IfOk, IfSome, OnErr, if◌then◌else◌};
    ghost use Rattle.std.specs.Io.KnownBytes.{Consumes, IsAtEnd, Keeps, WriteAppends};
    ghost use Rattle.acl_outside.specs.Fault.{next_count};
    ghost use Rattle.acl_outside.specs.Desk.{OpensFile, ReadsInto, CreatesFile, WritesPiece, FinishesFile};
    ghost use Rattle.acl_outside.specs.System.{shown_std_desk};

    ghost view = { shown_std_desk };

    fn open_file(&mut self, name: &str) -> Result<(), Failed>
        ensures opens { OpensFile name.now (shown_std_desk self.old) (shown_std_desk self.new)
            result }

        // No byte of the file before is given for one of this file.
        ensures nothing_held { self.new.held ≡ [] }
        // Each failure is a read fault, and nothing else is.
        ensures read_faults { self.new.read_faults ≡
            (if is_ok result then self.old.read_faults else next_count self.old.read_faults) }
    {
        self.created = None;
        self.buffer.clear();
        self.opened = fs::open(self.rt, name).ok();
        if self.opened.is_none() {
            self.read_faults = self.read_faults.saturating_add(1);
            self.transcript.note_not_opened(name);
            return Err(Failed);
        }
        self.transcript.note_opened(name);
        Ok(())
    }

    #[inline]
    fn read(&mut self, into: &mut [u8]) -> Result<usize, Failed>
        requires { IsTrue self.old.reading }

        ensures reads { ReadsInto into.old into.new (shown_std_desk self.old)
            (shown_std_desk self.new) result }

        // The bytes given are the next of the file, also across the buffer, and no byte of it is
        // lost.
        ensures next { IfOk result (λ count. Consumes self.old.remaining self.new.remaining
            (take count into.new)) }
        ensures at_end { result ≡ Ok 0 → (into.old ≡ []) ⊎ IsAtEnd self.new.remaining }
        ensures kept { OnErr result (Keeps self.old.remaining self.new.remaining) }
        // Each failure is a read fault, and nothing else is.
        ensures read_faults { self.new.read_faults ≡
            (if is_ok result then self.old.read_faults else next_count self.old.read_faults) }
    {
        // Mostly all that is asked for is held.
        if into.len() <= self.buffer.len() {
            let count = self.buffer.give(into);
            self.transcript.note_given(into.len(), &into[..count]);
            return Ok(count);
        }
        // Taken apart, the answer is settled in each arm, and isn't asked for again.
        match self.read_more(into) {
            Ok(count) => Ok(count),
            Err(Failed) => Err(Failed),
        }
    }

    /// What is held of the opened file, once a read of it gave fewer bytes than were asked for: it
    /// is a pipe, a terminal or such, or was read to its end.
    #[inline]
    fn at_hand(&self) -> Option<&[u8]>
        // They are the next bytes that are given.
        ensures held { IfSome result (λ bytes. bytes.now ≡ self.now.held) }
    {
        self.buffer.at_hand()
    }

    fn create_file(&mut self, name: &str) -> Result<(), Failed>
        ensures creates { CreatesFile name.now (shown_std_desk self.old) (shown_std_desk self.new)
            result }

        // Each failure is a write fault, and nothing else is.
        ensures write_faults { self.new.write_faults ≡
            (if is_ok result then self.old.write_faults else next_count self.old.write_faults) }
    {
        self.opened = None;
        self.created = fs::create(self.rt, name).ok();
        if self.created.is_none() {
            self.write_faults = self.write_faults.saturating_add(1);
            self.transcript.note_not_created(name);
            return Err(Failed);
        }
        self.transcript.note_created(name);
        Ok(())
    }

    fn write(&mut self, piece: &[u8]) -> Result<usize, Failed>
        requires { IsTrue self.old.writing }

        ensures writes { WritesPiece piece.now (shown_std_desk self.old)
            (shown_std_desk self.new) result }

        // The file gained the bytes that were taken, and nothing else.
        ensures contents { WriteAppends self.old.contents self.new.contents result piece.now }
        // Each failure is a write fault, and nothing else is.
        ensures write_faults { self.new.write_faults ≡
            (if is_ok result then self.old.write_faults else next_count self.old.write_faults) }
    {
        let Some(file) = &mut self.created else {
            unreachable!()
        };
        if piece.is_empty() {
            self.transcript.note_written(&[]);
            return Ok(0);
        }
        match write_once(file, piece) {
            Ok(count) => {
                self.transcript.note_written(&piece[..count]);
                Ok(count)
            }
            Err(Failed) => {
                self.write_faults = self.write_faults.saturating_add(1);
                self.transcript.note_not_written();
                Err(Failed)
            }
        }
    }

    fn finish(&mut self) -> Result<(), Failed>
        requires { IsTrue self.old.writing }

        ensures finishes { FinishesFile (shown_std_desk self.old) (shown_std_desk self.new) result }
        // Each failure is a write fault, and nothing else is.
        ensures write_faults { self.new.write_faults ≡
            (if is_ok result then self.old.write_faults else next_count self.old.write_faults) }
    {
        self.opened = None;
        let Some(file) = self.created.take() else {
            unreachable!()
        };
        if file.sync_all().is_err() {
            self.write_faults = self.write_faults.saturating_add(1);
            self.transcript.note_not_finished();
            return Err(Failed);
        }
        self.transcript.note_finished();
        Ok(())
    }
}

/// Reads the next bytes of the file, by way of the buffer where that saves calls of the system.
fn read_buffered<F: Read>(
    file: &mut F,
    buffer: &mut ReadBuffer,
    into: &mut [u8],
) -> Result<usize, Failed>
    ensures within { IfOk result (λ count. count ≤ length into.old) }
    ensures empty { into.old ≡ [] → result ≡ Ok 0 }
    // What is still to come of a file is what the buffer holds, and then what the file has left.
    ensures given { IfOk result (λ count. Consumes (prepend_known buffer.old (F.remaining file.old))
        (prepend_known buffer.new (F.remaining file.new)) (take count into.new)) }
    ensures end { result ≡ Ok 0 → (into.old ≡ []) ⊎
        IsAtEnd (prepend_known buffer.new (F.remaining file.new)) }
    ensures lost_nothing { OnErr result (Keeps (prepend_known buffer.old (F.remaining file.old))
        (prepend_known buffer.new (F.remaining file.new))) }
{
    if into.is_empty() {
        return Ok(0);
    }
    if buffer.is_empty() {
        if into.len() >= BUFFER_SIZE {
            return buffer.read_past(file, into);
        }
        buffer.refill(file)?;
    }
    Ok(buffer.give(into))
}
