//! A run of a command over files in memory with one fault, and what is compared of it.

ghost use Rattle.std.specs.Prelude.{◌≡◌, ◌<◌};

use crate::files::all_files;
use acl_outside::{Desk, MemDesk, MemSink};
use acl_tool::{Status, run};
use flat_table::Steps;
use std::alloc::{AllocError, Global};
use std::marker::Brand;
use std::process::Abort;
use std::sync::ledger::{Blank, Ledger};

/// How many bytes a call of the desk moves at most: a record of the capture takes one for its
/// header of 16 bytes and two for its frame of 38.
pub(crate) const DESK_PIECE: usize = 30;

/// How many bytes a put moves at most.
pub(crate) const SINK_PIECE: usize = 8;

/// The numbers of the calls that fail, 0 for none: of the reads, the writes, the puts to the output
/// and the puts of the message.
pub(crate) type Fault = [u64; 4];

/// What a run has to leave: its status, what was printed, what was told, the image, and the counts
/// of faults: of reads, absent files, writes, puts and the message.
pub(crate) type Want<'a> = (Status, &'a [u8], &'a [u8], &'a [u8], [u64; 5]);

/// Runs the words with a counter that nobody sees.
fn run_counted<D: Desk, L: Ledger>(
    blank: Blank,
    alloc: Global,
    words: &[String],
    desk: &mut D,
    out: &mut MemSink,
    err: &mut MemSink,
) -> Status
    requires name { blank.name ≡ L.name }
    requires parts { blank.parts ≡ L.parts }
    requires some { 0 < blank.parts }
{
    let mut steps = Steps::<L>::new(blank);
    run(alloc, words, desk, out, err, &mut steps)
}

/// Runs one command.
pub(crate) fn run_words<D: Desk>(
    alloc: Global,
    words: &[&str],
    desk: &mut D,
    out: &mut MemSink,
    err: &mut MemSink,
) -> Result<Status, AllocError> {
    let mut owned = Vec::new(alloc);
    for word in words {
        owned.push(String::from_str(alloc, word)?)?;
    }
    Ok(run_counted::<D, Brand>(Blank::new(1), alloc, &owned, desk, out, err))
}

/// A desk over all files, of which the image has these bytes.
fn desk<R: Abort + AllocGlobal>(rt: &R, image: &[u8], fault: Fault) -> Result<MemDesk, AllocError> {
    let alloc = rt.alloc();
    let files = all_files(alloc, image)?;
    assert!(rt; MemDesk::has_distinct_names(&files));
    let reads = vec![in alloc; fault[0]]?;
    let writes = vec![in alloc; fault[1]]?;
    MemDesk::new(alloc, files, DESK_PIECE, 2000, reads, writes)
}

/// A sink whose put of this number fails.
fn sink(alloc: Global, failing: u64) -> Result<MemSink, AllocError> {
    MemSink::new(alloc, 1000, SINK_PIECE, vec![in alloc; failing]?)
}

/// The bytes of the image.
fn image_in(alloc: Global, desk: &MemDesk) -> Result<Vec<u8>, AllocError> {
    Vec::from_slice(alloc, desk.file("i").unwrap_or(b""))
}

/// The counts of faults: of reads, absent files, writes, puts and the message.
fn counts_of(desk: &MemDesk, out: &MemSink, err: &MemSink) -> [u64; 5] {
    [
        desk.read_fault_count(),
        desk.absent_count(),
        desk.write_fault_count(),
        out.fault_count(),
        err.fault_count(),
    ]
}

/// Makes the image of the rule of the guide, and gives its bytes.
fn build_image(
    alloc: Global,
    desk: &mut MemDesk,
    out: &mut MemSink,
    err: &mut MemSink,
) -> Result<Vec<u8>, AllocError> {
    run_words(alloc, &["build", "r", "i"], desk, out, err)?;
    image_in(alloc, desk)
}

/// The image of the rule of the guide, as `build` makes it, or no bytes where it doesn't.
pub(crate) fn guide_image<R: Abort + AllocGlobal>(rt: &R) -> Result<Vec<u8>, AllocError> {
    let mut desk = desk(rt, b"", [0; 4])?;
    let (mut out, mut err) = (sink(rt.alloc(), 0)?, sink(rt.alloc(), 0)?);
    build_image(rt.alloc(), &mut desk, &mut out, &mut err)
}

/// Runs the words over an image of these bytes and the other files, where one call fails, and
/// compares what is left.
pub(crate) fn expect<R: Abort + AllocGlobal>(
    rt: &R,
    words: &[&str],
    image: &[u8],
    fault: Fault,
    want: Want<'_>,
) -> Result<(), AllocError> {
    let alloc = rt.alloc();
    let mut desk = desk(rt, image, fault)?;
    let (mut out, mut err) = (sink(alloc, fault[2])?, sink(alloc, fault[3])?);
    let status = run_words(alloc, words, &mut desk, &mut out, &mut err)?;
    let left = image_in(alloc, &desk)?;
    let (right, printed, told, image, counts) = want;
    assert!(rt; status == right);
    assert!(rt; out.bytes() == printed);
    assert!(rt; err.bytes() == told);
    assert!(rt; left.as_slice() == image);
    assert!(rt; counts_of(&desk, &out, &err) == counts);
    Ok(())
}

/// The first so many bytes, or all of them where there are fewer.
pub(crate) fn first(bytes: &[u8], count: usize) -> &[u8] {
    &bytes[..count.min(bytes.len())]
}
