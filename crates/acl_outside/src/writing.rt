//! Writing a piece as a whole.

ghost use Rattle.std.specs.Prelude.{IsTrue};
ghost use Rattle.acl_outside.specs.Sink.{Puts};
ghost use Rattle.acl_outside.specs.Writing.{WritesAll};

use crate::desk::{Desk, Failed};
use crate::sink::Sink;

/// Puts the whole piece, in as many puts as that needs. Of an empty piece it puts nothing.
///
/// `Failed`: a put failed, and some prefix of the piece was taken. It takes no memory where a put
/// takes none.
pub fn put_all<O: Sink>(out: &mut O, piece: &[u8]) -> Result<(), Failed>
    ensures { Puts piece.now (O.view out.old) (O.view out.new) result }
{
    let mut written = 0usize;
    'puts: while written < piece.len() {
        written += out.put(&piece[written..])?;
    }
    Ok(())
}

/// Writes the whole piece to the created file, in as many writes as that needs. Of an empty piece
/// it writes nothing.
///
/// A file has to be created and not finished. `Failed`: a write failed, and some prefix of the
/// piece was written. It takes no memory where a write takes none. Over [`StdDesk`](crate::StdDesk)
/// each write is a call of the system, so join what is small to pieces of 32 KiB or more.
pub fn write_all<D: Desk>(desk: &mut D, piece: &[u8]) -> Result<(), Failed>
    requires { IsTrue (D.view desk.old).writing }
    ensures { WritesAll piece.now (D.view desk.old) (D.view desk.new) result }
{
    let mut written = 0usize;
    'writes: while written < piece.len() {
        written += desk.write(&piece[written..])?;
    }
    Ok(())
}
