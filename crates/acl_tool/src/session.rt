//! `session`: a script of calls over a layout of its own, and the reply to each of its lines.

ghost use Rattle.std.specs.Prelude.{◌≡◌, ◌≢◌, ℕ, ◌⊎◌, nat_lt, length, false};
ghost use Rattle.std.specs.Prelude.{Ok, Err, IfOk, IfErr};
ghost use Rattle.command_words.specs.Command as asked;
ghost use Rattle.command_ending.specs.StepEffects.{Takes, outside};
ghost use Rattle.command_ending.specs.Endings.{is_reported, is_usage};
ghost use Rattle.acl_tool.specs.SessionPlan.{max_script, replies_in, replies_of};
ghost use Rattle.acl_tool.specs.SessionTells.{text_of};
ghost use Rattle.acl_tool.specs.CommandEffects.{Answers};

use crate::text::put_text;
use acl_outside::{Desk, Sink};
use command_ending::{Status, read_file};
use std::alloc::{AllocError, Global};

/// How many bytes a script may have.
const MAX_SCRIPT: usize = 16_777_216;

/// Does what the lines of a script ask for, and puts the reply to each.
///
/// The replies are whole in memory before the first byte is put. `ScriptRefused`: the script has
/// more than 16,777,216 bytes, and nothing was put. `WriteFault`: a first part of the replies was
/// put.
pub fn session<D: Desk, O: Sink>(alloc: Global, script: &str, desk: &mut D, out: &mut O) -> Status
    ensures { (steps : ℕ) → Answers (Ok (asked.Session script.now))
        (outside (D.view desk.old) (O.view out.old) steps)
        (outside (D.view desk.new) (O.view out.new) steps) result }
{
    match read_script(alloc, script, desk) {
        Ok(replies) => put_text(&replies, out),
        Err(status) => status,
    }
}

/// The replies to the lines of the named script. It takes all memory that `session` needs.
///
/// The file is read as far as one byte more than a script may have. A file that isn't there or
/// can't be read is a read fault.
fn read_script<D: Desk>(alloc: Global, name: &str, desk: &mut D) -> Result<Vec<u8>, Status>
    ensures { Takes (replies_in name.now) text_of (D.view desk.old) (D.view desk.new) result }
{
    match read_file(alloc, name, MAX_SCRIPT + 1, desk) {
        Ok(bytes) => replies_to(alloc, &bytes),
        Err(status) => Err(status),
    }
}

/// The replies to the lines of a script, or the status of one that is too long.
fn replies_to(alloc: Global, bytes: &[u8]) -> Result<Vec<u8>, Status>
    ensures replies { IfOk result (λ text. replies_of bytes.now ≡ Ok (text_of text)) }
    ensures fault { IfErr result
        (λ status. (replies_of bytes.now ≡ Err status) ⊎ (status ≡ Status.OutOfMemory)) }
    ensures unread { IfErr result (λ status. status ≢ Status.ReadFault) }
    ensures unreported { IfErr result (λ status. is_reported status ≡ false) }
    ensures lawful { IfErr result (λ status. is_usage status ≡ false) }
{
    if is_too_long(bytes) {
        return Err(Status::ScriptRefused);
    }
    match acl_session::session(alloc, bytes) {
        Ok(text) => Ok(text),
        Err(AllocError) => Err(Status::OutOfMemory),
    }
}

/// Whether a script has more bytes than it may have.
fn is_too_long(bytes: &[u8]) -> bool
    ensures { result ≡ nat_lt max_script (length bytes.now) }
{
    bytes.len() > MAX_SCRIPT
}
