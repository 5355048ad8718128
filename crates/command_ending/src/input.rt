//! The bytes of a file that a command reads.

ghost use Rattle.command_ending.specs.StepEffects.{ReadsFile};

use crate::status::Status;
use acl_outside::{Desk, Failed, ReadAll, read_up_to};
use std::alloc::Global;

/// The bytes of the named file, as far as `cap`. It takes the memory of the bytes.
///
/// A file that isn't there or can't be read is a read fault.
pub fn read_file<D: Desk>(
    alloc: Global,
    name: &str,
    cap: usize,
    desk: &mut D,
) -> Result<Vec<u8>, Status>
    ensures { ReadsFile name.now cap (D.view desk.old) (D.view desk.new) result }
{
    match desk.open_file(name) {
        Ok(()) => {}
        Err(Failed) => return Err(Status::ReadFault),
    }
    match read_up_to(alloc, desk, cap) {
        Ok(bytes) => Ok(bytes),
        Err(ReadAll::ReadFault) => Err(Status::ReadFault),
        Err(ReadAll::OutOfMemory) => Err(Status::OutOfMemory),
    }
}
