//! The file that a command makes.

ghost use Rattle.command_ending.specs.StepEffects.{MakesAll};

use acl_outside::{Desk, Failed, write_all};

/// Creates the named file, writes the bytes to it and finishes it. It takes no memory.
///
/// `Failed`: the file couldn't be created, and is as before, or it holds a prefix of the bytes.
pub fn make_file<D: Desk>(name: &str, bytes: &[u8], desk: &mut D) -> Result<(), Failed>
    ensures { MakesAll name.now bytes.now (D.view desk.old) (D.view desk.new) result }
{
    desk.create_file(name)?;
    write_all(desk, bytes)?;
    desk.finish()
}
