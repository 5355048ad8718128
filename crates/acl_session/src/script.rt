//! A whole script.

ghost use Rattle.std.specs.Prelude.{◌≡◌, IfOk};
ghost use Rattle.acl_session.specs.Session.{session_of};

use crate::made::Made;
use classbench_reader::is_skipped;
use std::alloc::{AllocError, Global};
use text_scan::split_line;

/// The replies to the lines of a script, one for each that is neither blank nor a comment.
///
/// A line that says nothing has the reply `bad line`, so any bytes are answered. It takes memory
/// for the replies, for one context, and for what a line says while it is done. Source: DPDK
/// Programmer's Guide, "Packet Classification and Access Control", for the calls.
pub fn session(alloc: Global, script: &[u8]) -> Result<Vec<u8>, AllocError>
    ensures { IfOk result (λ replies. replies.items ≡ session_of script.now) }
{
    let mut made = Made::new(alloc);
    let mut replies = Vec::new(alloc);
    let mut left = script;
    while let Some((line, rest)) = split_line(left) {
        if !is_skipped(line) {
            made.answer(line, &mut replies)?;
        }
        left = rest;
    }
    Ok(replies)
}
