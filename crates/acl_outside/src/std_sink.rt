//! A sink over a writer of the system.

ghost use Rattle.std.specs.Prelude.{◌<◌, ◌≤◌, length, IfOk};
ghost use Rattle.std.specs.Io.KnownBytes.{WriteAppends};

use crate::desk::Failed;
use crate::first_bytes::FirstBytes;
use crate::sink::Sink;
use crate::transcript::Transcript;
use std::io::{ErrorKind, Write};
use std::marker::Model;

/// A sink over standard output, standard error or another writer. If it is known what the writer
/// holds, the sink tells what was written to it.
///
/// Each put is one write, so join what belongs together before it is put. A write that is
/// interrupted before it takes a byte is made again, and one that takes no byte of a piece has
/// failed. Its count of faults stands still at 2^64 - 1.
/// Source: POSIX.1-2017, `write`.
#[derive(Drop)]
pub struct StdSink<W: Write + Drop> {
    writer: W,
    faults: u64,
    first: FirstBytes,
    transcript: Transcript,
}

impl<W: Write + Drop> Model for StdSink<W> {
    ghost use Rattle.std.specs.Prelude.{◌≡◌, ℕ, List, Some};
    ghost use Rattle.std.specs.Io.KnownBytes.{append_known};
    ghost use Rattle.acl_outside.specs.Answers.{taken_of};
    ghost use Rattle.acl_outside.specs.System.{StdSinkView};

    ghost Value = { StdSinkView };

    ghost view = { λ sink. record {
      contents = W.contents sink.writer;
      written = append_known sink.first.bytes (taken_of sink.transcript.notes);
      taken = taken_of sink.transcript.notes;
      faults = sink.faults;
    } };

    // The writer holds what is told as written.
    ghost invariant = { λ sink. (bytes : List ℕ)
        → append_known sink.first.bytes (taken_of sink.transcript.notes) ≡ Some bytes
        → W.contents sink.writer ≡ Some bytes };
}

impl<W: Write + Drop> StdSink<W> {
    ghost use Rattle.std.specs.Prelude.{◌≡◌, ℕ, List, Option};
    ghost use Rattle.acl_outside.specs.Sink.{Holds};
    ghost use Rattle.acl_outside.specs.System.{shown_std_sink, std_sink_over};

    /// A sink over this writer. It takes no memory.
    pub fn new(writer: W) -> StdSink<W>
        ensures { result ≡ std_sink_over (W.contents writer) }
    {
        StdSink::begun(writer)
    }

    /// The same, where the caller names the bytes that the writer holds.
    fn begun(writer: W) -> StdSink<W>
        ghost held: { Option (List ℕ) }
        requires { held ≡ W.contents writer }
        ensures { result ≡ std_sink_over (W.contents writer) }
    {
        StdSink {
            writer,
            faults: 0,
            first: FirstBytes::new(),
            transcript: Transcript::new(),
        }
    }

    /// The writer, with all that was written to it. It takes no memory.
    pub fn into_writer(self) -> W
        ensures { Holds (shown_std_sink self) (W.contents result) }
    {
        self.writer
    }
}

impl<W: Write + Drop> Sink for StdSink<W> {
    ghost use Rattle.std.specs.Prelude.{◌≡◌, is_ok, if◌then◌else◌};
    ghost use Rattle.std.specs.Io.KnownBytes.{WriteAppends};
    ghost use Rattle.acl_outside.specs.Fault.{next_count};
    ghost use Rattle.acl_outside.specs.Sink.{PutsPrefix};
    ghost use Rattle.acl_outside.specs.System.{shown_std_sink};

    ghost view = { shown_std_sink };

    fn put(&mut self, piece: &[u8]) -> Result<usize, Failed>
        ensures puts_prefix { PutsPrefix piece.now (shown_std_sink self.old)
            (shown_std_sink self.new) result }

        // The writer gained the bytes that were taken, and nothing else.
        ensures contents { WriteAppends self.old.contents self.new.contents result piece.now }
        // Each failure is counted, and nothing else is.
        ensures faults { self.new.faults ≡ (if is_ok result then self.old.faults else next_count
            self.old.faults) }
    {
        if piece.is_empty() {
            return Ok(0);
        }
        match write_once(&mut self.writer, piece) {
            Ok(count) => {
                self.transcript.note_taken(&piece[..count]);
                Ok(count)
            }
            Err(Failed) => {
                self.faults = self.faults.saturating_add(1);
                Err(Failed)
            }
        }
    }
}

/// Writes a prefix of the piece, which isn't empty, and says how many bytes it has. A write that is
/// interrupted is made again. One that takes nothing has failed, and so has one of any other error.
pub(crate) fn write_once<W: Write>(writer: &mut W, piece: &[u8]) -> Result<usize, Failed>
    ensures within { IfOk result (λ count. (0 < count) × (count ≤ length piece.now)) }
    ensures bytes { WriteAppends (W.contents writer.old) (W.contents writer.new) result piece.now }
{
    for _ in 0..u64::MAX {
        match writer.write(piece) {
            Ok(0) => return Err(Failed),
            Ok(count) => return Ok(count),
            Err(error) => {
                if error.kind() != ErrorKind::Interrupted {
                    return Err(Failed);
                }
            }
        }
    }
    Err(Failed)
}
