//! A capture that comes in pieces, as through a pipe: the lines of the packets that came are put
//! before the next piece is waited for.

use crate::files::{SEVENTEEN, all_files, seventeen};
use crate::turns::{first, run_words};
use acl_outside::{Desk, Failed, MemDesk, MemSink};
use acl_tool::Status;
use std::alloc::{AllocError, Global};
use std::marker::Model;
use std::process::Abort;
use std::test::Fail;

/// Where the pieces of the capture of 17 packets end, once so many were waited for: they have one
/// packet, one and a half, half of one, and all others.
const ENDS: [usize; 5] = [0, 78, 159, 186, 942];

/// A desk whose file `c` is a pipe, of which a byte is given at a time.
#[derive(Drop)]
struct PipeDesk<'a> {
    inside: MemDesk,
    capture: &'a [u8],
    /// Whether the pipe is opened, and how many of its bytes were given.
    given: Option<usize>,
    /// How many pieces were waited for, and the end of the file after them.
    waits: usize,
}

impl<'a> Model for PipeDesk<'a> {
    ghost use Rattle.acl_outside.specs.Memory.{MemDeskView};

    ghost Value = { MemDeskView };

    ghost view = { λ desk. desk.inside };
}

impl<'a> PipeDesk<'a> {
    /// How many bytes came so far.
    fn come(&self) -> usize {
        ENDS.get(self.waits).copied().unwrap_or(usize::MAX)
    }
}

impl<'a> Desk for PipeDesk<'a> {
    ghost use Rattle.acl_outside.specs.Memory.{shown_desk};

    ghost view = { shown_desk };

    fn open_file(&mut self, name: &str) -> Result<(), Failed> {
        self.given = if name == "c" { Some(0) } else { None };
        self.inside.open_file(name)
    }

    fn read(&mut self, into: &mut [u8]) -> Result<usize, Failed> {
        if self.given == Some(self.come()) {
            self.waits = self.waits.saturating_add(1);
        }
        let read = self.inside.read(into);
        if let (Some(given), Ok(count)) = (self.given, read) {
            self.given = Some(given.saturating_add(count));
        }
        read
    }

    fn at_hand(&self) -> Option<&[u8]> {
        self.capture.get(self.given?..self.come())
    }

    fn create_file(&mut self, name: &str) -> Result<(), Failed> {
        self.inside.create_file(name)
    }

    fn write(&mut self, piece: &[u8]) -> Result<usize, Failed> {
        self.inside.write(piece)
    }

    fn finish(&mut self) -> Result<(), Failed> {
        self.inside.finish()
    }
}

/// A desk whose pipe has this capture, of which nothing came yet.
fn pipe_desk<'a, R: Abort + AllocGlobal>(
    rt: &R,
    capture: &'a [u8],
) -> Result<PipeDesk<'a>, AllocError> {
    let alloc = rt.alloc();
    let files = all_files(alloc, b"")?;
    assert!(rt; MemDesk::has_distinct_names(&files));
    Ok(PipeDesk {
        inside: MemDesk::new(alloc, files, 1, 0, Vec::new(alloc), Vec::new(alloc))?,
        capture,
        given: None,
        waits: 0,
    })
}

/// Reports what comes through the pipe to this output.
fn report(alloc: Global, desk: &mut PipeDesk<'_>, out: &mut MemSink) -> Result<Status, AllocError> {
    let mut err = MemSink::new(alloc, 100, 100, Vec::new(alloc))?;
    run_words(alloc, &["classify", "r", "c"], desk, out, &mut err)
}

/// An output whose put of this number fails.
fn output(alloc: Global, failing: u64) -> Result<MemSink, AllocError> {
    MemSink::new(alloc, 1000, 1000, vec![in alloc; failing]?)
}

/// Compares how many pieces were waited for, with the end of the file, and how many bytes of lines
/// were put, as the put of this number fails, or none where it is 0.
fn puts_before_waits<R: Abort + AllocGlobal>(
    rt: &R,
    capture: &[u8],
    (failing, waits, len): (u64, usize, usize),
) -> Result<(), AllocError> {
    let mut desk = pipe_desk(rt, capture)?;
    let mut out = output(rt.alloc(), failing)?;
    let status = report(rt.alloc(), &mut desk, &mut out)?;
    let ended = if failing == 0 {
        Status::Done
    } else {
        Status::WriteFault
    };
    assert!(rt; status == ended);
    assert!(rt; desk.waits == waits);
    assert!(rt; out.bytes() == first(SEVENTEEN.as_bytes(), len));
    Ok(())
}

#[test]
fn the_lines_of_what_came_are_put_before_more_is_waited_for(rt: HostRuntime) -> Result<(), Fail> {
    let capture = seventeen(rt.alloc())?;
    for case in [
        (1, 1, 0),
        (2, 2, 8),
        (3, 3, 16),
        (4, 4, 24),
        (5, 5, 144),
        (0, 5, 184),
    ] {
        puts_before_waits(&rt, &capture, case)?;
    }
    Ok(())
}
