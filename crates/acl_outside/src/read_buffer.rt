//! The buffer through which files of the system are read.

ghost use Rattle.std.specs.Prelude.{◌≡◌, ◌↔◌, ◌≤◌, [], length, take, drop, min, IsTrue, IfOk, IfSome, OnOk, OnErr};
ghost use Rattle.std.specs.Io.KnownBytes.{Consumes, IsAtEnd, Keeps, ReadConsumes};

use crate::desk::Failed;
use std::io::{ErrorKind, Read};
use std::marker::Model;

/// How many bytes the buffer holds at most: one call of the system reads as many. It stands in the
/// frame of the caller, whose stack it has to fit.
pub(crate) const BUFFER_SIZE: usize = 32 * 1024;

/// Bytes that were read of a file and not given yet: those of `bytes` from `start` to `end`.
#[derive(Drop)]
pub(crate) struct ReadBuffer {
    bytes: [u8; BUFFER_SIZE],
    start: usize,
    end: usize,
    /// Whether each read of the file gave as many bytes as were asked for.
    full: bool,
}

impl Model for ReadBuffer {
    ghost use Rattle.std.specs.Prelude.{ℕ, ◌-◌, ◌≤◌, List, take, drop};
    ghost use Rattle.acl_outside.specs.declared.read_buffer.TheConstants.{BUFFER_SIZE};

    ghost Value = { List ℕ };

    ghost view = { λ buffer. take (buffer.end - buffer.start) (drop buffer.start buffer.bytes) };

    ghost invariant = { λ buffer. (buffer.start ≤ buffer.end) × (buffer.end ≤ BUFFER_SIZE) };
}

impl ReadBuffer {
    pub(crate) fn new() -> ReadBuffer
        ensures { result ≡ [] }
    {
        ReadBuffer {
            bytes: [0; BUFFER_SIZE],
            start: 0,
            end: 0,
            full: true,
        }
    }

    #[inline]
    pub(crate) fn is_empty(&self) -> bool
        ensures { IsTrue result ↔ (self.now ≡ []) }
    {
        self.start == self.end
    }

    /// How many bytes are held.
    #[inline]
    pub(crate) fn len(&self) -> usize
        ensures { result ≡ length self.now }
    {
        self.end - self.start
    }

    /// Drops what was held, for a file of which nothing was read.
    pub(crate) fn clear(&mut self)
        ensures { self.new ≡ [] }
    {
        self.start = 0;
        self.end = 0;
        self.full = true;
    }

    /// The bytes that are held, where a read of the file gave fewer than were asked for.
    #[inline]
    pub(crate) fn at_hand(&self) -> Option<&[u8]>
        ensures { IfSome result (λ bytes. bytes.now ≡ self.now) }
    {
        if self.full {
            None
        } else {
            Some(&self.bytes[self.start..self.end])
        }
    }

    /// Reads once of the file into a slice that is as large as the buffer, which is empty.
    pub(crate) fn read_past<F: Read>(
        &mut self,
        file: &mut F,
        into: &mut [u8],
    ) -> Result<usize, Failed>
        ensures within { IfOk result (λ count. count ≤ length into.old) }
        ensures bytes { ReadConsumes (F.remaining file.old) (F.remaining file.new) result into.new }
        ensures held { self.new ≡ self.old }
    {
        let count = read_once(file, into)?;
        self.full = self.full && count == into.len();
        Ok(count)
    }

    /// Reads once of the file, in place of what was held.
    #[inline(never)]
    pub(crate) fn refill<F: Read>(&mut self, file: &mut F) -> Result<(), Failed>
        ensures read { OnOk result (Consumes (F.remaining file.old) (F.remaining file.new)
            self.new) }
        ensures end { OnOk result (self.new ≡ [] → IsAtEnd (F.remaining file.new)) }
        ensures lost_nothing { OnErr result ((self.new ≡ []) ×
            Keeps (F.remaining file.old) (F.remaining file.new)) }
    {
        self.start = 0;
        self.end = 0;
        self.end = read_once(file, &mut self.bytes)?;
        self.full = self.full && self.end == BUFFER_SIZE;
        Ok(())
    }

    /// Moves the first bytes into the beginning of the slice, and says how many they are.
    #[inline]
    pub(crate) fn give(&mut self, into: &mut [u8]) -> usize
        ensures moved { result ≡ min (length self.old) (length into.old) }
        ensures given { take result into.new ≡ take result self.old }
        ensures left { self.new ≡ drop result self.old }
    {
        let held = &self.bytes[self.start..self.end];
        // Mostly all that there is room for is held.
        if into.len() <= held.len() {
            let count = into.len();
            into.copy_from_slice(&held[..count]);
            self.start += count;
            return count;
        }
        let count = held.len();
        into[..count].copy_from_slice(held);
        self.start += count;
        count
    }
}

/// Reads once of the file into the beginning of the slice, and says how many bytes, 0 at the end of
/// the file. A read that is interrupted is made again, and any other error is a failure. It takes
/// no memory.
pub fn read_once<F: Read>(file: &mut F, into: &mut [u8]) -> Result<usize, Failed>
    ensures within { IfOk result (λ count. count ≤ length into.old) }
    ensures bytes { ReadConsumes (F.remaining file.old) (F.remaining file.new) result into.new }
{
    for _ in 0..u64::MAX {
        match file.read(into) {
            Ok(count) => return Ok(count),
            Err(error) => {
                if error.kind() != ErrorKind::Interrupted {
                    return Err(Failed);
                }
            }
        }
    }
    Err(Failed)
}
