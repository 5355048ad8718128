//! What the rules of a list presuppose of packets, as comments.

ghost use Rattle.std.specs.Prelude.{◌≡◌, ◌++◌, ◌∷◌, [], map, IfOk, OnOk};
ghost use Rattle.list_tool.specs.Premises.{assumed_text, beside_text, data_text, fragments_text};
ghost use Rattle.list_tool.specs.Premises.{headers_text, premises, subject_text, tables_text};
ghost use Rattle.list_tool.specs.Requests.{request_of};

use crate::words::{Form, Request};
use iptables_reader::{Answers, has_other_tables};
use std::alloc::{AllocError, Global};

/// The texts of the comments above the rules of a rule file: which chain they decide as, what else
/// may drop the packets, what is assumed of them, which packets are meant, and what the userdata
/// is. `bytes` is the list.
pub(crate) fn premises<'a>(
    alloc: Global,
    request: &Request<'a>,
    bytes: &[u8],
) -> Result<Vec<&'a [u8]>, AllocError>
    ensures { IfOk result (λ texts. map (λ text. text.now) texts.items
        ≡ premises (request_of request.now) bytes.now) }
{
    let form = request.form;
    let mut texts = Vec::new(alloc);
    push_text(&mut texts, subject_text(form))?;
    push_text(&mut texts, request.chain.as_bytes())?;
    push_text(&mut texts, beside_text(form, bytes))?;
    push_text(&mut texts, b"Of each of them this is assumed:")?;
    push_text(&mut texts, assumed_text(request.options.assumed))?;
    push_text(&mut texts, headers_text(form))?;
    push_text(&mut texts, fragments_text(form))?;
    push_text(&mut texts, data_text(form, request.options.answers))?;
    Ok(texts)
}

/// Puts a text after the others.
fn push_text<'a>(texts: &mut Vec<&'a [u8]>, text: &'a [u8]) -> Result<(), AllocError>
    ensures { OnOk result (map (λ text. text.now) texts.new.items
        ≡ map (λ text. text.now) texts.old.items ++ text.now ∷ []) }
{
    texts.push(text)?;
    Ok(())
}

/// The chain or the list whose name stands in the next comment.
fn subject_text(form: Form) -> &'static [u8]
    ensures { result.now ≡ subject_text form }
{
    match form {
        Form::Iptables => b"IPv4 packets that come to this chain of filter:",
        Form::Ip6tables => b"IPv6 packets that come to this chain of filter:",
        Form::Cisco => b"IPv4 packets that this access list is applied to:",
        Form::Nft => b"IPv4 packets that come to this base chain:",
        Form::Nft6 => b"IPv6 packets that come to this base chain:",
    }
}

/// What else may drop the packets.
fn beside_text(form: Form, bytes: &[u8]) -> &'static [u8]
    ensures { result.now ≡ beside_text form bytes.now }
{
    match form {
        Form::Iptables | Form::Ip6tables => tables_text(bytes),
        Form::Cisco => b"Whether another access list drops them isn't known.",
        Form::Nft | Form::Nft6 => b"No other base chain of this ruleset drops them.",
    }
}

/// What is known of other tables of a save.
fn tables_text(bytes: &[u8]) -> &'static [u8]
    ensures { result.now ≡ tables_text bytes.now }
{
    if has_other_tables(bytes) {
        b"No other table of this list drops them."
    } else {
        b"Other tables weren't in this list, so whether one drops them isn't known."
    }
}

/// What is assumed of each of the packets.
fn assumed_text(assumed: &[u8]) -> &[u8]
    ensures { result.now ≡ assumed_text assumed.now }
{
    match assumed {
        [] => b"nothing",
        [_, ..] => assumed,
    }
}

/// Which headers the packets have.
fn headers_text(form: Form) -> &'static [u8]
    ensures { result.now ≡ headers_text form }
{
    match form {
        Form::Iptables => {
            b"Headers are complete: legacy iptables drops others at -m tcp, udp and sctp."
        }
        Form::Ip6tables => {
            b"Headers are complete, without AH: legacy ip6tables drops others, or looks behind AH."
        }
        Form::Cisco => b"Headers are complete.",
        Form::Nft | Form::Nft6 => b"Headers are complete: on others a match of ports fails.",
    }
}

/// That no packet is a fragment.
fn fragments_text(form: Form) -> &'static [u8]
    ensures { result.now ≡ fragments_text form }
{
    match form {
        Form::Iptables | Form::Ip6tables | Form::Nft | Form::Nft6 => {
            b"No fragments: on later ones a match of ports fails."
        }
        Form::Cisco => {
            b"No fragments: an entry that permits ports permits later ones by addresses alone."
        }
    }
}

/// What the userdata is.
fn data_text(form: Form, answers: Answers) -> &'static [u8]
    ensures { result.now ≡ data_text form answers }
{
    match (form, answers) {
        (_, Answers::Verdict) => b"data= is 1 to accept, 2 to drop and 3 to reject.",
        (Form::Iptables | Form::Ip6tables, Answers::Line) => {
            b"data= is the number of the line that decides."
        }
        (Form::Cisco, Answers::Line) => {
            b"data= is the number of the line that decides, and 0 if none does."
        }
        (Form::Nft | Form::Nft6, Answers::Line) => {
            b"data= is the handle of the rule that decides, or of the chain by its policy."
        }
    }
}
