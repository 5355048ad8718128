//! The null device in the place of standard streams that are closed.

ghost use Rattle.std.specs.Prelude.{◌≡◌, Some, None, IfSome, IsTrue, int_le, pos, if◌then◌else◌};
ghost use Rattle.std.specs.Fd.{file_raw_fd};

use std::fs;
use std::os::fd::AsRawFd;

/// The numbers of standard input, output and error are at most this one.
const LAST_STREAM: i32 = 2;

/// The null device in the place of each standard stream that is closed, as long as this lives, so
/// that no file that is opened meanwhile gets its number and is written over by lines.
///
/// Source: POSIX.1-2017, `open`, which gives the lowest free number.
#[derive(Drop)]
pub struct HeldStreams {
    _first: Option<fs::File>,
    _second: Option<fs::File>,
    _third: Option<fs::File>,
}

impl HeldStreams {
    /// Holds the streams that are closed: at most three, as many as there are. A null device that
    /// can't be opened holds none. It takes no memory.
    pub fn new(rt: &HostRuntime) -> HeldStreams {
        HeldStreams {
            _first: held_stream(rt),
            _second: held_stream(rt),
            _third: held_stream(rt),
        }
    }
}

/// The null device, where it got the number of a standard stream, which was closed then. It takes
/// no memory. Source: POSIX.1-2017, `open`.
pub fn held_stream(rt: &HostRuntime) -> Option<fs::File>
    ensures { IfSome result (λ file. IsTrue (int_le (file_raw_fd file) (pos 2))) }
{
    let null = fs::open(rt, "/dev/null").ok()?;
    kept(null)
}

/// The file, where it has the number of a standard stream. Otherwise it is closed.
fn kept(file: fs::File) -> Option<fs::File>
    ensures { result ≡ (if int_le (file_raw_fd file) (pos 2) then Some file else None) }
{
    if file.as_raw_fd() <= LAST_STREAM {
        Some(file)
    } else {
        None
    }
}
