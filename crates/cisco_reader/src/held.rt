//! What groups hold: the lines of their members, and what they stand for.

ghost use Rattle.std.specs.Prelude.{◌≡◌, ◌<◌, ◌++◌, length, IfSome, MatchResult, OnOk, Ok, Err};
ghost use Rattle.cisco_reader.specs.Held as meant;
ghost use Rattle.cisco_reader.specs.Read.{Gives};
ghost use Rattle.cisco_reader.specs.Services.{service_of_words};

use crate::entry::{Addresses, Services};
use crate::fault::{CiscoFault, LineKind, line_fault};
use crate::groups::{Group, place_for};
use crate::lines::Line;
use crate::members::network_of_words;
use crate::services::{Service, service_of_words};
use crate::wildcard::spans_under;
use crate::words::Words;
use list_chains::Span;
use std::alloc::{AllocError, Global};

/// How many members a group may hold, with those of the groups in it.
pub(crate) const MAX_HELD: usize = 65_536;

/// In how many others a group may lie.
pub(crate) const MAX_DEPTH: u32 = 100;

/// The lines of the group of a place.
fn lines_at<'g, 'a>(groups: &'g [Group<'a>], place: usize) -> Result<&'g [Line<'a>], LineKind>
    ensures { MatchResult result
        (λ lines. meant.lines_at groups.now place ≡ Ok lines.now)
        (λ kind. meant.lines_at groups.now place ≡ Err kind) }
{
    match groups.get(place) {
        Some(group) => {
            if group.lines().is_empty() {
                return Err(LineKind::EmptyGroup);
            }
            Ok(group.lines())
        }
        None => Err(LineKind::EmptyGroup),
    }
}

/// The lines of the group that is named.
fn inner_lines<'g, 'a>(
    groups: &'g [Group<'a>],
    kind: &[u8],
    words: &mut Words,
) -> Result<&'g [Line<'a>], LineKind>
    ensures { MatchResult result
        (λ lines. meant.inner_lines groups.now kind.now words.old ≡ Ok lines.now)
        (λ fault. meant.inner_lines groups.now kind.now words.old ≡ Err fault) }
{
    let name = words.required()?;
    words.end()?;
    let place = place_for(groups, kind, name)?;
    lines_at(groups, place)
}

/// Puts lines after others.
fn put_lines<'a>(into: &mut Vec<Line<'a>>, lines: &[Line<'a>]) -> Result<(), AllocError>
    ensures { OnOk result (into.new.items ≡ into.old.items ++ lines.now) }
{
    for line in lines {
        into.push(line.again())?;
    }
    Ok(())
}

/// Puts a line, or those of the group that it names. A number has the line that named all of them.
fn put_opened<'a>(
    groups: &[Group<'a>],
    kind: &[u8],
    number: u32,
    into: &mut Vec<Line<'a>>,
    line: &Line<'a>,
) -> Result<(), CiscoFault>
    ensures { Gives (meant.with_opened groups.now kind.now number into.old.items line.now)
        (λ none. into.new.items) result }
{
    let mut words = line.words();
    if words.skip(b"group-object") {
        match inner_lines(groups, kind, &mut words) {
            Ok(lines) => put_lines(into, lines)?,
            Err(fault) => return Err(line_fault(line.number, fault)),
        }
    } else {
        into.push(line.again())?;
    }
    if into.len() > MAX_HELD {
        return Err(line_fault(number, LineKind::LargeGroup));
    }
    Ok(())
}

/// Lines, each replaced by those of the group that it names.
fn all_opened<'a>(
    alloc: Global,
    groups: &[Group<'a>],
    kind: &[u8],
    number: u32,
    lines: &[Line<'a>],
) -> Result<Vec<Line<'a>>, CiscoFault>
    ensures { Gives (meant.all_opened groups.now kind.now number lines.now)
        (λ made. made.items) result }
{
    let mut into = Vec::new(alloc);
    for line in lines {
        put_opened(groups, kind, number, &mut into, line)?;
    }
    Ok(into)
}

/// The place of the first line that names a group.
fn first_naming(lines: &[Line]) -> Option<usize>
    ensures place { result ≡ meant.first_naming lines.now }
    ensures within { IfSome result (λ place. place < length lines.now) }
{
    lines
        .iter()
        .position(|line| line.words().is_next(b"group-object"))
}

/// The number of the line of a place.
fn number_at(lines: &[Line], place: usize) -> u32
    requires { place < length lines.now }
    ensures { result ≡ meant.number_at lines.now place }
{
    let line = &lines[place];
    line.number
}

/// The lines of all members that a group holds, which a line names. It takes the memory of them.
fn held<'a>(
    alloc: Global,
    groups: &[Group<'a>],
    kind: &[u8],
    number: u32,
    place: usize,
) -> Result<Vec<Line<'a>>, CiscoFault>
    ensures { Gives (meant.held groups.now kind.now number place) (λ lines. lines.items) result }
{
    match lines_at(groups, place) {
        Ok(lines) => {
            let mut own = Vec::new(alloc);
            put_lines(&mut own, lines)?;
            opened_times(alloc, groups, kind, number, own)
        }
        Err(fault) => Err(line_fault(number, fault)),
    }
}

/// Lines in which groups are replaced until none is named.
fn opened_times<'a>(
    alloc: Global,
    groups: &[Group<'a>],
    kind: &[u8],
    number: u32,
    lines: Vec<Line<'a>>,
) -> Result<Vec<Line<'a>>, CiscoFault>
    ensures { Gives (meant.opened_times meant.max_depth groups.now kind.now number lines.entry.items
        ) (λ made. made.items) result }
{
    let mut made = lines;
    let mut times = MAX_DEPTH;
    while let Some(place) = first_naming(&made) {
        if times == 0 {
            return Err(line_fault(number_at(&made, place), LineKind::GroupLoop));
        }
        match all_opened(alloc, groups, kind, number, &made) {
            Ok(more) => made = more,
            Err(fault) => return Err(fault),
        }
        times -= 1;
    }
    Ok(made)
}

/// The addresses of members.
fn networks(alloc: Global, lines: &[Line]) -> Result<Vec<Span>, CiscoFault>
    ensures { Gives (meant.members meant.network_of_words lines.now) (λ spans. spans.items) result }
{
    let mut into = Vec::new(alloc);
    for line in lines {
        match network_of_words(&mut line.words()) {
            Ok(span) => into.push(span)?,
            Err(kind) => return Err(line_fault(line.number, kind)),
        }
    }
    Ok(into)
}

/// The addresses of an entry's side, which stands in a line. It takes the memory of them.
pub(crate) fn address_spans(
    alloc: Global,
    groups: &[Group],
    number: u32,
    addresses: Addresses,
) -> Result<Vec<Span>, CiscoFault>
    ensures { Gives (meant.address_spans groups.now number addresses)
        (λ spans. spans.items) result }
{
    match addresses {
        Addresses::Under(it) => Ok(spans_under(alloc, it)?),
        Addresses::Group(place) => {
            let lines = held(alloc, groups, b"network".as_slice(), number, place)?;
            networks(alloc, &lines)
        }
    }
}

/// The services of the group of a place, which an entry in a line names. It takes the memory of
/// them.
pub(crate) fn group_services(
    alloc: Global,
    groups: &[Group],
    number: u32,
    place: usize,
) -> Result<Vec<Service>, CiscoFault>
    ensures { Gives (meant.services_of groups.now number (Services.Group place))
        (λ found. found.items) result }
{
    let lines = held(alloc, groups, b"service".as_slice(), number, place)?;
    member_services(alloc, &lines)
}

/// The services of members.
fn member_services(alloc: Global, lines: &[Line]) -> Result<Vec<Service>, CiscoFault>
    ensures { Gives (meant.members service_of_words lines.now) (λ found. found.items) result }
{
    let mut into = Vec::new(alloc);
    for line in lines {
        match service_of_words(&mut line.words()) {
            Ok(service) => into.push(service)?,
            Err(kind) => return Err(line_fault(line.number, kind)),
        }
    }
    Ok(into)
}
