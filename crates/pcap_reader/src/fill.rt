//! Reading on until a slice is full.

ghost use Rattle.std.specs.Prelude.{◌≤◌, length, IsTrue};
ghost use Rattle.pcap_reader.specs.Fill.{Fills, FillsOn};

use acl_outside::{Desk, Failed};

/// Reads the next bytes of the opened file into `into`, and says how many they are: all that it has
/// room for, or fewer where the file ends before. What stands after them in `into` is left open.
///
/// It asks for no byte beyond `into`, and for none where `into` is empty. `Failed`: the desk's
/// count of read faults rose. It takes no memory.
#[inline(always)]
pub fn fill<D: Desk>(desk: &mut D, into: &mut [u8]) -> Result<usize, Failed>
    requires { IsTrue (D.view desk.old).reading }
    ensures { Fills into.old into.new (D.view desk.old) (D.view desk.new) result }
{
    if into.is_empty() {
        return Ok(0);
    }
    match desk.read(into) {
        Ok(count) => {
            // Mostly one read fills the slice.
            if count == into.len() || count == 0 {
                return Ok(count);
            }
            fill_rest(desk, into, count)
        }
        Err(Failed) => Err(Failed),
    }
}

/// The same where so many bytes were read.
#[inline(never)]
fn fill_rest<D: Desk>(desk: &mut D, into: &mut [u8], so_far: usize) -> Result<usize, Failed>
    requires reading { IsTrue (D.view desk.old).reading }
    requires within { so_far ≤ length into.old }
    ensures { FillsOn so_far into.old into.new (D.view desk.old) (D.view desk.new) result }
{
    let mut len = so_far;
    'parts: while len < into.len() {
        match desk.read(&mut into[len..]) {
            Ok(0) => return Ok(len),
            Ok(count) => len += count,
            Err(Failed) => return Err(Failed),
        }
    }
    Ok(len)
}
