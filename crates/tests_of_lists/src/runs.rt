//! A run over a list in memory with one fault, and what is compared of it.

use acl_outside::{MemDesk, MemFile, MemSink};
use list_tool::run_lists;
use std::alloc::{AllocError, Global};
use std::process::Abort;

/// How many bytes a read gives at most.
pub(crate) const DESK_PIECE: usize = 30;

/// How many bytes a put moves at most.
pub(crate) const SINK_PIECE: usize = 16;

/// The numbers of the calls that fail, 0 for none: of the reads, the puts to the output and the
/// puts of the message.
pub(crate) type Fault = [u64; 3];

/// What a run has to leave: its exit code, what was printed, what was told, and the counts of
/// faults: of reads, absent files, puts and the message.
pub(crate) type Want<'a> = (u8, &'a [u8], &'a [u8], [u64; 4]);

/// The words of a run, as the program has them.
fn owned(alloc: Global, words: &[&str]) -> Result<Vec<String>, AllocError> {
    let mut all = Vec::new(alloc);
    for word in words {
        all.push(String::from_str(alloc, word)?)?;
    }
    Ok(all)
}

/// A desk over the file `list` with these bytes.
fn desk<R: Abort + AllocGlobal>(rt: &R, list: &[u8], read: u64) -> Result<MemDesk, AllocError> {
    let alloc = rt.alloc();
    let name = String::from_str(alloc, "list")?;
    let bytes = Vec::from_slice(alloc, list)?;
    let files = vec![in alloc; MemFile { name, bytes }]?;
    assert!(rt; MemDesk::has_distinct_names(&files));
    MemDesk::new(
        alloc,
        files,
        DESK_PIECE,
        0,
        vec![in alloc; read]?,
        vec![in alloc; 0]?,
    )
}

/// A sink whose put of this number fails.
fn sink(alloc: Global, room: usize, failing: u64) -> Result<MemSink, AllocError> {
    MemSink::new(alloc, room, SINK_PIECE, vec![in alloc; failing]?)
}

/// Runs the words over the file `list` with these bytes, where one call fails, and compares what is
/// left. There is room for so many bytes of output.
pub(crate) fn expect_in<R: Abort + AllocGlobal>(
    rt: &R,
    words: &[&str],
    list: &[u8],
    room: usize,
    fault: Fault,
    want: Want<'_>,
) -> Result<(), AllocError> {
    let alloc = rt.alloc();
    let mut desk = desk(rt, list, fault[0])?;
    let (mut out, mut err) = (sink(alloc, room, fault[1])?, sink(alloc, 1000, fault[2])?);
    let words = owned(alloc, words)?;
    let status = run_lists(alloc, &words, &mut desk, &mut out, &mut err);
    let (code, printed, told, counts) = want;
    assert!(rt; status.code() == code);
    assert!(rt; out.bytes() == printed);
    assert!(rt; err.bytes() == told);
    assert!(rt; desk.read_fault_count() == counts[0]);
    assert!(rt; desk.absent_count() == counts[1]);
    assert!(rt; out.fault_count() == counts[2]);
    assert!(rt; err.fault_count() == counts[3]);
    Ok(())
}

/// The same with room for the rule files of small lists.
pub(crate) fn expect<R: Abort + AllocGlobal>(
    rt: &R,
    words: &[&str],
    list: &[u8],
    fault: Fault,
    want: Want<'_>,
) -> Result<(), AllocError> {
    expect_in(rt, words, list, 1000, fault, want)
}

/// The first so many bytes, or all of them where there are fewer.
pub(crate) fn first(bytes: &[u8], count: usize) -> &[u8] {
    &bytes[..count.min(bytes.len())]
}
