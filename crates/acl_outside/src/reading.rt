//! Reading an opened file to its end.

ghost use Rattle.std.specs.Prelude.{◌≡◌, ◌<◌, ◌≤◌, take, vec_len, IsTrue, OnOk};
ghost use Rattle.acl_outside.specs.DeskReading.{ReadsUpTo};

use crate::desk::{Desk, Failed};
use std::alloc::{AllocError, Global};

/// Why a file wasn't read.
#[derive(Clone, Copy, Debug, PartialEq, Eq)]
pub enum ReadAll {
    /// The desk's count of read faults rose.
    ReadFault,
    /// Memory ran out.
    OutOfMemory,
}

impl From<AllocError> for ReadAll {
    ghost use Rattle.acl_outside.specs.declared.reading.ReadAll.TheVariants.{OutOfMemory};

    ghost from_gives = { λ _ fault. fault ≡ OutOfMemory };

    fn from(_: AllocError) -> ReadAll {
        ReadAll::OutOfMemory
    }
}

/// The first and smallest part that is made for the bytes of a file.
const FIRST_PART: usize = 64 * 1024;

/// The bytes of the opened file from where it is read on: up to its end, or `cap` of them where it
/// has more.
///
/// An `Err` has lost some prefix of what was left. It takes memory for 64 KiB first, and then for
/// as much again as was read, and reads straight into it.
pub fn read_up_to<D: Desk>(alloc: Global, desk: &mut D, cap: usize) -> Result<Vec<u8>, ReadAll>
    requires { IsTrue (D.view desk.old).reading }

    ensures { ReadsUpTo cap (D.view desk.old) (D.view desk.new) result }
{
    let mut bytes = Vec::new(alloc);
    let mut len = 0usize;
    'parts: while len < cap {
        make_room(&mut bytes, len, cap)?;
        match desk.read(&mut bytes[len..]) {
            Ok(0) => break,
            Ok(count) => len += count,
            Err(Failed) => return Err(ReadAll::ReadFault),
        }
    }
    bytes.truncate(len);
    Ok(bytes)
}

/// Makes room for bytes after the first `len`, where there is none: as much again, up to the cap.
fn make_room(bytes: &mut Vec<u8>, len: usize, cap: usize) -> Result<(), AllocError>
    requires in_bytes { len ≤ vec_len bytes.old }
    requires in_cap { vec_len bytes.old ≤ cap }
    requires below_cap { len < cap }

    ensures room { OnOk result (len < vec_len bytes.new) }
    ensures within { vec_len bytes.new ≤ cap }
    ensures kept { OnOk result (take len bytes.new.items ≡ take len bytes.old.items) }
{
    if len < bytes.len() {
        return Ok(());
    }
    let part = len.max(FIRST_PART).min(cap - len);
    bytes.resize(len + part, 0)?;
    Ok(())
}
