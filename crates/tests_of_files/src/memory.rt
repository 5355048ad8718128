//! A desk in memory over one file, for the tests of files and captures.

use acl_outside::{MemDesk, MemFile};
use std::alloc::{AllocError, Global};
use std::process::Abort;

/// The file of this name and these bytes alone.
fn alone(alloc: Global, name: &str, bytes: &[u8]) -> Result<Vec<MemFile>, AllocError> {
    let name = String::from_str(alloc, name)?;
    let bytes = Vec::from_slice(alloc, bytes)?;
    Ok(vec![in alloc; MemFile { name, bytes }]?)
}

/// A desk over the file, with room for eight bytes of a created one. A call of it moves so many
/// bytes at most, and the read and the write of these numbers fail, 0 for none.
pub(crate) fn desk_over(
    rt: &impl Abort,
    alloc: Global,
    (name, bytes): (&str, &[u8]),
    piece: usize,
    (failing_read, failing_write): (u64, u64),
) -> Result<MemDesk, AllocError> {
    let files = alone(alloc, name, bytes)?;
    assert!(rt; piece > 0 && MemDesk::has_distinct_names(&files));
    let reads = Vec::from_slice(alloc, &[failing_read])?;
    let writes = Vec::from_slice(alloc, &[failing_write])?;
    MemDesk::new(alloc, files, piece, 8, reads, writes)
}
