//! Read faults, write faults and faults of the message, of each command.

use crate::files::{ANSWERED, AUDITED, COMPARED, MEASURED, SEVENTEEN};
use crate::turns::{DESK_PIECE, Fault, SINK_PIECE, Want, expect, first, guide_image};
use acl_tool::{CaptureFault, Family, Status, UsageFault, UsageKind};
use std::alloc::AllocError;
use std::process::Abort;
use std::test::Fail;

/// The words of a command, what it prints, and the numbers of its calls where none fails: the
/// read-side call that asks for the first record, the first read-side call that isn't made, and the
/// first put that isn't made. Where no capture is read the first two are one.
type Command = (&'static [&'static str], &'static str, [u64; 3]);

/// An opening and four reads are for a rule file. An opening and two reads begin the capture, one
/// for the bytes that tell its format and one for the rest of the file header. Three reads give a
/// record, and one finds the end.
const CLASSIFY: Command = (&["classify", "r", "c"], SEVENTEEN, [9, 61, 24]);

/// 22 reads give the 656 bytes of the image, and one finds the end.
const REPLAY: Command = (&["replay", "i", "c"], SEVENTEEN, [28, 80, 24]);

const AUDIT: Command = (&["audit", "r"], AUDITED, [6, 6, 11]);

const COMPARE: Command = (&["compare", "r", "s"], COMPARED, [11, 11, 11]);

/// An opening and five reads are for the script, of which the last finds its end. Seven puts take
/// the replies.
const SESSION: Command = (&["session", "t"], ANSWERED, [7, 7, 8]);

const BENCH: Command = (&["bench", "1", "0", "3"], MEASURED, [1, 1, 11]);

const BUILD: Command = (&["build", "r", "i"], "", [6, 6, 1]);

const READ_FAULT: &[u8] = b"aclc: read fault\n";

const WRITE_FAULT: &[u8] = b"aclc: write fault\n";

/// How many bytes the lines of so many of the 17 packets have.
fn bytes_of_lines(count: u64) -> usize {
    let lines = count.min(17) as usize;
    8 * lines + lines.saturating_sub(9)
}

/// How many bytes so many pieces have.
fn bytes_of_pieces(count: u64, piece: usize) -> usize {
    (count.min(100) as usize) * piece.min(100)
}

/// Runs a command whose read of this number fails.
fn fail_read<R: Abort + AllocGlobal>(
    rt: &R,
    command: Command,
    image: &[u8],
    read: u64,
) -> Result<(), AllocError> {
    let (words, text, [first_record, _, _]) = command;
    let records = read.saturating_sub(first_record) / 3;
    let out = first(text.as_bytes(), bytes_of_lines(records));
    let want = (Status::ReadFault, out, READ_FAULT, image, [1, 0, 0, 0, 0]);
    expect(rt, words, image, [read, 0, 0, 0], want)
}

/// Runs a command whose put of this number fails.
fn fail_put<R: Abort + AllocGlobal>(
    rt: &R,
    command: Command,
    image: &[u8],
    put: u64,
) -> Result<(), AllocError> {
    let (words, text, _) = command;
    let taken = bytes_of_pieces(put.saturating_sub(1), SINK_PIECE);
    let out = first(text.as_bytes(), taken);
    let want = (Status::WriteFault, out, WRITE_FAULT, image, [0, 0, 0, 1, 0]);
    expect(rt, words, image, [0, 0, put, 0], want)
}

/// Runs `build` over an older image, where the write-side call of this number fails.
fn fail_write<R: Abort + AllocGlobal>(rt: &R, image: &[u8], write: u64) -> Result<(), AllocError> {
    let before: &[u8] = b"before";
    let taken = bytes_of_pieces(write.saturating_sub(2), DESK_PIECE);
    let left = if write < 2 {
        before
    } else {
        first(image, taken)
    };
    let want: Want<'_> = (Status::WriteFault, b"", WRITE_FAULT, left, [0, 0, 1, 0, 0]);
    expect(rt, &["build", "r", "i"], before, [0, write, 0, 0], want)
}

/// Runs a command that doesn't come to the call that would fail.
fn end_done<R: Abort + AllocGlobal>(
    rt: &R,
    command: Command,
    image: &[u8],
    fault: Fault,
) -> Result<(), AllocError> {
    let (words, text, _) = command;
    let want: Want<'_> = (Status::Done, text.as_bytes(), b"", image, [0; 5]);
    expect(rt, words, image, fault, want)
}

/// Fails each read of a command, and then one that it doesn't make.
fn fail_reads<R: Abort + AllocGlobal>(
    rt: &R,
    command: Command,
    image: &[u8],
) -> Result<(), AllocError> {
    let (_, _, [_, unread, _]) = command;
    for read in 1..unread {
        fail_read(rt, command, image, read)?;
    }
    end_done(rt, command, image, [unread, 0, 0, 0])
}

/// Fails each put of a command, and then one that it doesn't make.
fn fail_puts<R: Abort + AllocGlobal>(
    rt: &R,
    command: Command,
    image: &[u8],
) -> Result<(), AllocError> {
    let (_, _, [_, _, unput]) = command;
    for put in 1..unput {
        fail_put(rt, command, image, put)?;
    }
    end_done(rt, command, image, [0, 0, unput, 0])
}

#[test]
fn a_read_that_fails_leaves_the_lines_of_the_records_before(rt: HostRuntime) -> Result<(), Fail> {
    let image = guide_image(&rt)?;
    for command in [CLASSIFY, REPLAY, AUDIT, COMPARE, SESSION, BENCH, BUILD] {
        fail_reads(&rt, command, &image)?;
    }
    Ok(())
}

#[test]
fn a_put_that_fails_leaves_a_first_part_of_the_text(rt: HostRuntime) -> Result<(), Fail> {
    let image = guide_image(&rt)?;
    for command in [CLASSIFY, REPLAY, AUDIT, COMPARE, SESSION, BENCH, BUILD] {
        fail_puts(&rt, command, &image)?;
    }
    Ok(())
}

#[test]
fn a_write_that_fails_leaves_a_first_part_of_the_image(rt: HostRuntime) -> Result<(), Fail> {
    let image = guide_image(&rt)?;
    // A call creates the file, 22 write it, and one finishes it.
    for write in 1..25 {
        fail_write(&rt, &image, write)?;
    }
    end_done(&rt, BUILD, &image, [0, 25, 0, 0])?;
    Ok(())
}

/// Runs a command that ends with this status and message, once for each put of the message, which
/// fails, and once where none does. The counts are of all faults but those of the message.
fn fail_message<R: Abort + AllocGlobal>(
    rt: &R,
    words: &[&str],
    fault: [u64; 3],
    status: Status,
    told: (&str, &str),
    counts: [u64; 4],
) -> Result<(), AllocError> {
    let pieces = told.1.len().div_ceil(SINK_PIECE);
    for piece in 0..pieces + 1 {
        let fault = [fault[0], fault[1], fault[2], piece as u64 + 1];
        let err = first(told.1.as_bytes(), bytes_of_pieces(piece as u64, SINK_PIECE));
        let failed = u64::from(piece < pieces);
        let counts = [counts[0], counts[1], counts[2], counts[3], failed];
        let want: Want<'_> = (status, told.0.as_bytes(), err, b"before", counts);
        expect(rt, words, b"before", fault, want)?;
    }
    Ok(())
}

#[test]
fn a_message_that_fails_leaves_the_status(rt: HostRuntime) -> Result<(), Fail> {
    let usage = Status::Usage(UsageFault {
        word: 2,
        kind: UsageKind::MissingName,
    });
    let told = ("", "aclc: usage: word 2: missing name\n");
    fail_message(&rt, &["audit"], [0; 3], usage, told, [0; 4])?;
    let large = Status::TooLarge {
        family: Family::Ip4,
        words: 85,
        budget: 84,
    };
    let words = &["classify", "r", "c", "max-words=84"];
    let told = ("", "aclc: ip4 table too large: words 85 budget 84\n");
    fail_message(&rt, words, [0; 3], large, told, [0; 4])?;
    let cut = Status::CaptureRefused(CaptureFault::HeaderCut);
    let told = ("", "aclc: capture: record 0: header cut\n");
    fail_message(&rt, &["classify", "r", "i"], [0; 3], cut, told, [0; 4])?;
    let told = ("", "aclc: read fault\n");
    fail_message(
        &rt,
        &["audit", "x"],
        [0; 3],
        Status::ReadFault,
        told,
        [0, 1, 0, 0],
    )?;
    let told = ("1 ip4 0\n2 ip4 0\n", "aclc: write fault\n");
    fail_message(
        &rt,
        CLASSIFY.0,
        [0, 0, 3],
        Status::WriteFault,
        told,
        [0, 0, 0, 1],
    )?;
    Ok(())
}

#[test]
fn a_message_on_a_script_that_fails_leaves_the_status(rt: HostRuntime) -> Result<(), Fail> {
    let usage = Status::Usage(UsageFault {
        word: 2,
        kind: UsageKind::MissingName,
    });
    let told = ("", "aclc: usage: word 2: missing name\n");
    fail_message(&rt, &["session"], [0; 3], usage, told, [0; 4])?;
    let (fault, counts) = (Status::ReadFault, [0, 1, 0, 0]);
    let told = ("", "aclc: read fault\n");
    fail_message(&rt, &["session", "x"], [0; 3], fault, told, counts)?;
    let (fault, counts) = (Status::WriteFault, [0, 0, 0, 1]);
    let told = ("ok\nok\nok\nrefused", "aclc: write fault\n");
    fail_message(&rt, SESSION.0, [0, 0, 3], fault, told, counts)?;
    Ok(())
}
