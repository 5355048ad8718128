//! Files and output in memory and of the system, up to their ends and their faults.

ghost use Rattle.std.specs.Prelude.{◌≡◌, IsTrue, OnOk};

use crate::memory::desk_over;
use acl_outside::{
    Desk, Failed, MemDesk, MemSink, ReadAll, Sink, StdDesk, StdSink, put_all, read_once,
    read_up_to, write_all,
};
use std::alloc::{AllocError, Global};
use std::io::{ErrorKind, Read, Write};
use std::process::Abort;
use std::test::Fail;
use std::{fs, io};

/// A desk with a file of ten digits, whose reads and writes move three bytes, with room for eight.
fn memory_desk<R: Abort + AllocGlobal>(
    rt: &R,
    failing_read: u64,
    failing_write: u64,
) -> Result<MemDesk, AllocError> {
    let digits: (&str, &[u8]) = ("digits", b"0123456789");
    desk_over(rt, rt.alloc(), digits, 3, (failing_read, failing_write))
}

/// Opens the named file. What else a call promises is not used here.
fn opens<D: Desk>(desk: &mut D, name: &str) -> Result<(), Failed>
    ensures { OnOk result (IsTrue (D.view desk.new).reading) }
{
    desk.open_file(name)
}

/// The opened file has these bytes up to the cap, or none for a read fault.
fn reads<R: Abort + AllocGlobal, D: Desk>(rt: &R, desk: &mut D, cap: usize, want: Option<&[u8]>)
    requires { IsTrue (D.view desk.old).reading }
    ensures { (D.view desk.new).reading ≡ (D.view desk.old).reading }
{
    let read = read_up_to(rt.alloc(), desk, cap);
    was_read(rt, &read, want);
}

/// These bytes were read, or none for a read fault.
fn was_read(rt: &impl Abort, read: &Result<Vec<u8>, ReadAll>, want: Option<&[u8]>) {
    match read {
        Ok(bytes) => assert!(rt; Some(bytes.as_slice()) == want),
        Err(fault) => assert!(rt; (*fault, want) == (ReadAll::ReadFault, None)),
    }
}

/// Call 1 finds no file, call 2 opens one, calls 3 to 6 read it, and call 7 meets its end. The
/// first reading goes up to the cap.
fn reads_twice<R: Abort + AllocGlobal>(
    rt: &R,
    failing: u64,
    cap: usize,
    first: Option<&[u8]>,
    second: &[u8],
) -> Result<(), Fail> {
    let mut desk = memory_desk(rt, failing, 0)?;
    reads_digits(rt, &mut desk, cap, first, second)?;
    assert!(rt; desk.absent_count() == 1);
    assert!(rt; desk.read_fault_count() == u64::from(first.is_none()));
    Ok(())
}

/// Finds no file, opens one and reads it twice.
fn reads_digits<R: Abort + AllocGlobal, D: Desk>(
    rt: &R,
    desk: &mut D,
    cap: usize,
    first: Option<&[u8]>,
    second: &[u8],
) -> Result<(), Failed> {
    assert!(rt; opens(desk, "digit") == Err(Failed));
    opens(desk, "digits")?;
    reads(rt, desk, cap, first);
    reads(rt, desk, 100, Some(second));
    Ok(())
}

#[test]
fn a_file_in_memory_is_read_to_its_end_its_cap_or_its_fault(rt: HostRuntime) -> Result<(), Fail> {
    reads_twice(&rt, 0, 100, Some(b"0123456789"), b"")?;
    reads_twice(&rt, 1, 4, Some(b"0123"), b"456789")?;
    reads_twice(&rt, 0, 0, Some(b""), b"0123456789")?;
    reads_twice(&rt, 5, 100, None, b"6789")
}

/// Creates the named file, writes two pieces and finishes it, up to the first failure.
fn makes<D: Desk>(desk: &mut D, name: &str, first: &[u8], second: &[u8]) -> Result<(), Failed> {
    desk.create_file(name)?;
    write_all(desk, first)?;
    write_all(desk, second)?;
    desk.finish()
}

/// Call 1 creates a file, calls 2 and 3 write five bytes, call 4 writes the second piece, and the
/// next finishes the file. What the file holds afterwards, and whether all calls succeed.
fn makes_up_to<R: Abort + AllocGlobal>(
    rt: &R,
    failing: u64,
    second: &[u8],
    want: Option<&[u8]>,
    succeeds: bool,
) -> Result<(), Fail> {
    let mut desk = memory_desk(rt, 0, failing)?;
    let made = makes(&mut desk, "image", b"01234", second);
    assert!(rt; made.is_ok() == succeeds);
    has_image(rt, &desk, want, succeeds);
    Ok(())
}

/// The made file has these bytes, no fault came but where it didn't succeed, and the digits stay.
fn has_image(rt: &impl Abort, desk: &MemDesk, want: Option<&[u8]>, succeeds: bool) {
    assert!(rt; desk.file("image") == want);
    assert!(rt; desk.write_fault_count() == u64::from(!succeeds));
    assert!(rt; desk.file("digits") == Some(b"0123456789".as_slice()));
}

#[test]
fn a_file_in_memory_is_made_up_to_its_room_or_its_fault(rt: HostRuntime) -> Result<(), Fail> {
    makes_up_to(&rt, 0, b"567", Some(b"01234567"), true)?;
    makes_up_to(&rt, 0, b"5678", Some(b"01234567"), false)?;
    makes_up_to(&rt, 1, b"567", None, false)?;
    makes_up_to(&rt, 3, b"567", Some(b"012"), false)?;
    makes_up_to(&rt, 5, b"567", Some(b"01234567"), false)
}

/// What a sink took, which takes three bytes in a put and has room for eight.
fn puts<R: Abort + AllocGlobal>(
    rt: &R,
    failing: u64,
    piece: &[u8],
    want: &[u8],
) -> Result<(), Fail> {
    let failing = Vec::from_slice(rt.alloc(), &[failing])?;
    let mut sink = MemSink::new(rt.alloc(), 8, 3, failing)?;
    takes(rt, &mut sink, piece, want);
    Ok(())
}

/// The sink takes these bytes of the piece, and fails where they aren't all.
fn takes(rt: &impl Abort, sink: &mut MemSink, piece: &[u8], want: &[u8]) {
    let put = put_all(sink, piece);
    assert!(rt; put.is_ok() == (piece == want));
    assert!(rt; sink.bytes() == want);
    assert!(rt; sink.fault_count() == u64::from(piece != want));
}

#[test]
fn a_sink_in_memory_takes_pieces_up_to_its_room_or_its_fault(rt: HostRuntime) -> Result<(), Fail> {
    puts(&rt, 0, b"01234567", b"01234567")?;
    puts(&rt, 0, b"012345678", b"01234567")?;
    puts(&rt, 2, b"01234567", b"012")
}

/// The numbers from 0 on, each of four bytes in network order.
fn numbers(alloc: Global, count: u32) -> Result<Vec<u8>, AllocError> {
    let mut bytes = Vec::new(alloc);
    for number in 0..count {
        bytes.extend_from_slice(&number.to_be_bytes())?;
    }
    Ok(bytes)
}

/// A name keeps its spaces.
const SPACED: &str = " acl_outside std_desk ";

/// A file that is made twice has what was written last.
fn makes_anew<R: Abort + AllocGlobal, D: Desk>(rt: &R, desk: &mut D) -> Result<(), Failed> {
    makes(desk, SPACED, b"earlier and longer", b"")?;
    makes(desk, SPACED, b"packets", b" and rules")?;
    opens(desk, SPACED)?;
    reads(rt, desk, 100, Some(b"packets and rules"));
    Ok(())
}

/// These bytes are written and read back.
fn reads_back<R: Abort + AllocGlobal, D: Desk>(
    rt: &R,
    desk: &mut D,
    long: &[u8],
) -> Result<(), Failed> {
    makes(desk, SPACED, b"", long)?;
    assert!(rt; opens(desk, "acl_outside std_desk") == Err(Failed));
    opens(desk, SPACED)?;
    // A few bytes by way of the buffer, the rest of it, and then straight into the list.
    reads(rt, desk, 24, long.get(..24));
    reads(rt, desk, 1_000_000, long.get(24..));
    // An opened file is read from its beginning.
    opens(desk, SPACED)?;
    reads(rt, desk, 10, long.get(..10));
    Ok(())
}

#[test]
fn a_file_of_the_system_is_made_and_read_back(rt: HostRuntime) -> Result<(), Fail> {
    // 240,000 bytes are more than two buffers and two parts of memory.
    let long = numbers(rt.alloc(), 60_000)?;
    let mut desk = StdDesk::new(&rt);
    makes_anew(&rt, &mut desk)?;
    reads_back(&rt, &mut desk, &long)?;
    fs::remove_file(&rt, SPACED)?;
    Ok(())
}

/// The paths name a device, no file, and a folder, which can be opened, and neither be read nor be
/// written.
fn takes_paths<R: Abort + AllocGlobal, D: Desk>(rt: &R, desk: &mut D) -> Result<(), Failed> {
    opens(desk, "/dev/null")?;
    reads(rt, desk, 10, Some(b""));
    assert!(rt; opens(desk, "dev/null") == Err(Failed));
    desk.create_file("/dev/null")?;
    opens(desk, ".")?;
    reads(rt, desk, 10, None);
    assert!(rt; desk.create_file(".") == Err(Failed));
    Ok(())
}

#[test]
fn a_path_of_the_system_is_taken_as_it_is(rt: HostRuntime) -> Result<(), Fail> {
    let mut desk = StdDesk::new(&rt);
    takes_paths(&rt, &mut desk)?;
    Ok(())
}

/// A file that is interrupted three times, then moves two bytes, none and two again, and then
/// fails. A call that moved none and was made again would move two.
#[derive(Drop)]
struct Stubborn<'a> {
    taken: &'a mut [u8; 2],
    calls: u8,
}

impl Stubborn<'_> {
    /// How many bytes the next call moves.
    fn next(&mut self) -> io::Result<usize> {
        self.calls = self.calls.saturating_add(1);
        match self.calls {
            1..=3 => Err(io::Error::from(ErrorKind::Interrupted)),
            4 | 6 => Ok(2),
            5 => Ok(0),
            _ => Err(io::Error::from(ErrorKind::StorageFull)),
        }
    }
}

impl Write for Stubborn<'_> {
    fn write(&mut self, piece: &[u8]) -> io::Result<usize> {
        match (self.next()?, piece) {
            (2, [first, second, ..]) => {
                *self.taken = [*first, *second];
                Ok(2)
            }
            _ => Ok(0),
        }
    }

    fn flush(&mut self) -> io::Result<()> {
        Ok(())
    }
}

impl Read for Stubborn<'_> {
    fn read(&mut self, into: &mut [u8]) -> io::Result<usize> {
        match (self.next()?, into) {
            (2, [first, second, ..]) => {
                [*first, *second] = *self.taken;
                Ok(2)
            }
            _ => Ok(0),
        }
    }
}

/// A put that takes nothing has failed and isn't made again, and so has one of another error.
fn takes_once<O: Sink>(rt: &impl Abort, sink: &mut O) {
    assert!(rt; sink.put(b"packets") == Ok(2));
    assert!(rt; sink.put(b"ckets") == Err(Failed));
    assert!(rt; put_all(sink, b"ckets") == Err(Failed));
    assert!(rt; put_all(sink, b"") == Ok(()));
}

/// A read that gives nothing is the end of the file, and one of another error has failed.
fn gives_once(rt: &impl Abort, file: &mut Stubborn<'_>) {
    let mut into = [0; 4];
    assert!(rt; read_once(file, &mut into) == Ok(2));
    assert!(rt; into == *b"ck\0\0");
    assert!(rt; read_once(file, &mut into) == Ok(0));
    assert!(rt; read_once(file, &mut into) == Ok(2));
    assert!(rt; read_once(file, &mut into) == Err(Failed));
}

#[test]
fn a_call_is_made_again_where_it_was_interrupted(rt: HostRuntime) {
    let mut taken = [0; 2];
    let mut sink = StdSink::new(Stubborn {
        taken: &mut taken,
        calls: 0,
    });
    takes_once(&rt, &mut sink);
    drop(sink);
    assert!(rt; taken == *b"ck");

    let mut file = Stubborn {
        taken: &mut taken,
        calls: 0,
    };
    gives_once(&rt, &mut file);
}
