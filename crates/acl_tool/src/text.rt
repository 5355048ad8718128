//! A text that is whole in memory before its first byte is put.

ghost use Rattle.command_ending.specs.StepEffects.{PutsLast};

use acl_outside::{Failed, Sink, put_all};
use command_ending::Status;

/// Puts the whole text. It takes no memory. `WriteFault`: a first part of it was put.
pub fn put_text<O: Sink>(text: &[u8], out: &mut O) -> Status
    ensures { PutsLast text.now (O.view out.old) (O.view out.new) result }
{
    match put_all(out, text) {
        Ok(()) => Status::Done,
        Err(Failed) => Status::WriteFault,
    }
}
