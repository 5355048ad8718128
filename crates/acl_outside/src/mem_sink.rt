//! A sink over memory, which stands in for an output stream in tests, and fails where it is told
//! to.

use crate::desk::Failed;
use crate::listed::is_listed;
use crate::made_file::put_in_room;
use crate::sink::Sink;
use std::alloc::{AllocError, Global};
use std::marker::Model;

/// A sink that keeps what is written, up to the room that it was made with. It tells what was
/// written, and a put takes no memory.
///
/// Its puts of non-empty pieces are numbered from 1. Such a put fails exactly where its number
/// stands in the list that the sink was made with, or no room is left. At 2^64 - 1 the number of
/// puts and the count of faults stand still.
#[derive(Drop)]
pub struct MemSink {
    /// What was written, in memory that was taken for `room` bytes.
    bytes: Vec<u8>,
    room: usize,
    /// How many bytes a put takes at most.
    piece: usize,
    failing: Vec<u64>,
    puts: u64,
    faults: u64,
}

impl Model for MemSink {
    ghost use Rattle.std.specs.Prelude.{◌<◌, ◌≤◌, vec_len, vec_capacity};
    ghost use Rattle.acl_outside.specs.Memory.{MemSinkView};

    ghost Value = { MemSinkView };

    ghost view = { λ sink. record {
      written = sink.bytes.items;
      room = sink.room;
      piece = sink.piece;
      failing = sink.failing.items;
      puts = sink.puts;
      faults = sink.faults;
    } };

    ghost invariant = { λ sink. (vec_len sink.bytes ≤ sink.room) ×
        (sink.room ≤ vec_capacity sink.bytes) × (0 < sink.piece) };
}

impl MemSink {
    ghost use Rattle.std.specs.Prelude.{◌≡◌, ◌<◌, [], IfOk};

    /// A sink with room for `room` bytes, whose puts take at most `piece` bytes and fail at the
    /// numbers `failing`.
    ///
    /// `piece` is at least 1. It takes the memory for `room` bytes, and is an `Err` where that
    /// can't be had.
    pub fn new(
        alloc: Global,
        room: usize,
        piece: usize,
        failing: Vec<u64>,
    ) -> Result<MemSink, AllocError>
        requires { 0 < piece }
        ensures { IfOk result (λ sink. sink ≡ record {
          written = [];
          room = room;
          piece = piece;
          failing = failing.items;
          puts = 0;
          faults = 0;
        }) }
    {
        Ok(MemSink {
            bytes: Vec::with_capacity(alloc, room)?,
            room,
            piece,
            failing,
            puts: 0,
            faults: 0,
        })
    }

    /// What was written.
    pub fn bytes(&self) -> &[u8]
        ensures { result.now ≡ self.now.written }
    {
        &self.bytes
    }

    /// How many puts failed.
    pub fn fault_count(&self) -> u64
        ensures { result ≡ self.now.faults }
    {
        self.faults
    }
}

impl Sink for MemSink {
    ghost use Rattle.std.specs.Prelude.{◌≡◌, length, nat_lt, is_ok, is_err, IfOk, if◌then◌else◌};
    ghost use Rattle.acl_outside.specs.Fault.{next_count};
    ghost use Rattle.acl_outside.specs.Sink.{PutsPrefix};
    ghost use Rattle.acl_outside.specs.Memory.{KeepsRules, shown_sink, put_fails, put_len};

    ghost view = { shown_sink };

    fn put(&mut self, piece: &[u8]) -> Result<usize, Failed>
        ensures puts_prefix { PutsPrefix piece.now (shown_sink self.old) (shown_sink self.new)
            result }
        // Exactly where it fails, and how many bytes it takes where it doesn't.
        ensures fails { is_err result ≡ put_fails self.old (length piece.now) }
        ensures moved { IfOk result (λ count. count ≡ put_len self.old (length piece.now)) }
        ensures puts { self.new.puts ≡ (if nat_lt 0 (length piece.now) then next_count self.old.puts
            else self.old.puts) }
        ensures faults { self.new.faults ≡ (if is_ok result then self.old.faults else next_count
            self.old.faults) }
        ensures kept { KeepsRules self.old self.new }
    {
        if piece.is_empty() {
            return Ok(0);
        }
        self.puts = self.puts.saturating_add(1);
        if self.bytes.len() >= self.room || is_listed(&self.failing, self.puts) {
            self.faults = self.faults.saturating_add(1);
            return Err(Failed);
        }
        let count = self
            .piece
            .min(piece.len().min(self.room - self.bytes.len()));
        put_in_room(&mut self.bytes, &piece[..count]);
        Ok(count)
    }
}
