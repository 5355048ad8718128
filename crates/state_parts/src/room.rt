//! Numbers that run out.

ghost use Rattle.std.specs.Prelude.{◌<◌, ◌^◌, ◌+◌, OnOk};

use std::alloc::{AllocError, Global};

/// How many numbers there are: each fits 32 bits, and 0 stands for nothing.
const MOST: usize = 0xFFFF_FFFF;

/// Whether there is one more number than `count`. Where there is none, more memory than can be had
/// is asked for, so that the answer is the allocator's own.
pub(crate) fn check_room(alloc: Global, count: usize) -> Result<(), AllocError>
    ensures { OnOk result (count + 1 < 2 ^ 32) }
{
    if count < MOST {
        return Ok(());
    }
    let _all: Vec<u64> = Vec::with_capacity(alloc, usize::MAX)?;
    unreachable!()
}
