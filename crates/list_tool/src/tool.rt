//! The top call: words, a list and an output in, a status out.

ghost use Rattle.std.specs.Prelude.{◌≡◌, ◌≢◌, ◌⊎◌, ◌≤◌, map, string_bytes};
ghost use Rattle.acl_outside.specs.Heard.{Heard};
ghost use Rattle.command_ending.specs.StepEffects.{PutsLine, heard_of, outside};
ghost use Rattle.list_tool.specs.Message.{message, message_after};
ghost use Rattle.list_tool.specs.Requests.{request_of};
ghost use Rattle.list_tool.specs.RunsLists.{AnswersList, Prints, RunsLists};
ghost use Rattle.list_tool.specs.Steps.{IsReadOn, PutsText, unread_as};

use crate::message::message_line;
use crate::printing::rule_file_text;
use crate::status::{ListStatus, Refusal};
use crate::words::{Request, read_words};
use acl_outside::{Desk, Failed, Sink, put_all};
use acl_report::LINE_ROOM;
use command_ending::{Status, read_file};
use iptables_reader::MAX_LIST;
use std::alloc::Global;

/// Prints the rule file of a chain of a firewall's list or ruleset, or of a list of a router's
/// configuration, and tells how that ended.
///
/// The words are those after the program's name: `iptables` or `ip6tables`, the name of the file,
/// and the name of a chain that packets come to by themselves; or `cisco`, the name of the file,
/// and the name or the number of an extended list of IPv4; or `nft` or `nft6`, the name of the
/// file, and the name of a base chain. Then options: `data=line` or `data=verdict`, and `assume=`,
/// which changes nothing for `cisco`.
///
/// The list is read through `desk`. What is put to `out` is a rule file whose winner has, for every
/// packet of the family, the number of the line that decides, or its verdict. Above its rules stand
/// the texts of their lines as comments. Rules and chains of `nft` have handles in the place of
/// lines. Where the status isn't `Done` a line that names the cause goes to `err`, and below it the
/// line of the list that is refused. Where `err` fails nothing else changes. The text is whole in
/// memory before its first byte is put.
pub fn run_lists<D: Desk, O: Sink, E: Sink>(
    alloc: Global,
    words: &[String],
    desk: &mut D,
    out: &mut O,
    err: &mut E,
) -> ListStatus
    ensures { RunsLists (map string_bytes words.now)
        (outside (D.view desk.old) (O.view out.old) 0)
        (outside (D.view desk.new) (O.view out.new) 0)
        (E.view err.old) (E.view err.new) result }
{
    match read_words(words) {
        Ok(request) => answer_request(alloc, &request, desk, out, err),
        Err(fault) => {
            let status = ListStatus::Usage(fault);
            put_message(b"", b"", &status, err);
            status
        }
    }
}

/// Does what was asked for, and tells how that ended.
fn answer_request<D: Desk, O: Sink, E: Sink>(
    alloc: Global,
    request: &Request,
    desk: &mut D,
    out: &mut O,
    err: &mut E,
) -> ListStatus
    ensures answers { AnswersList (request_of request.now)
        (outside (D.view desk.old) (O.view out.old) 0)
        (outside (D.view desk.new) (O.view out.new) 0) result }
    ensures message { PutsLine (message_after (heard_of (D.view desk.new)) result)
        (E.view err.old) (E.view err.new) }
{
    match read_file(alloc, request.file, MAX_LIST + 1, desk) {
        Ok(bytes) => {
            let status = answer_bytes(alloc, &bytes, request, out);
            put_message(request.file.as_bytes(), &bytes, &status, err);
            status
        }
        Err(status) => {
            let status = unread(status);
            put_message(request.file.as_bytes(), b"", &status, err);
            status
        }
    }
}

/// How a run ends whose list isn't read.
fn unread(status: Status) -> ListStatus
    requires { (status ≡ Status.ReadFault) ⊎ (status ≡ Status.OutOfMemory) }
    ensures { result ≡ unread_as status }
{
    match status {
        Status::ReadFault => ListStatus::ReadFault,
        Status::OutOfMemory => ListStatus::OutOfMemory,
        _ => unreachable!(),
    }
}

/// Prints the rule file of these bytes.
fn answer_bytes<O: Sink>(alloc: Global, bytes: &[u8], request: &Request, out: &mut O) -> ListStatus
    ensures prints { (file : Heard) → file.bytes ≡ bytes.now → IsReadOn file
        → Prints (request_of request.now) file (O.view out.old) (O.view out.new) result }
    ensures count { (O.view out.old).faults ≤ (O.view out.new).faults }
    ensures not_unread { result ≢ ListStatus.ReadFault }
{
    match rule_file_text(alloc, bytes, request) {
        Ok(text) => put_text(&text, out),
        Err(Refusal::Fault(fault)) => ListStatus::Refused(fault),
        Err(Refusal::OutOfMemory) => ListStatus::OutOfMemory,
    }
}

/// Puts the whole text. It takes no memory.
fn put_text<O: Sink>(text: &[u8], out: &mut O) -> ListStatus
    ensures { PutsText text.now (O.view out.old) (O.view out.new) result }
{
    match put_all(out, text) {
        Ok(()) => ListStatus::Done,
        Err(Failed) => ListStatus::WriteFault,
    }
}

/// Puts what tells a status to standard error, by the name of the list and what was read of it. A
/// failure there leaves the status as it is.
fn put_message<E: Sink>(name: &[u8], bytes: &[u8], status: &ListStatus, err: &mut E)
    ensures { PutsLine (message name.now bytes.now status.now) (E.view err.old) (E.view err.new) }
{
    let mut line = [0u8; LINE_ROOM];
    let len = message_line(name, bytes, status, &mut line);
    let _ = put_all(err, &line[..len]);
}
