//! Groups of a configuration, by their names, each with the lines of its members.

ghost use Rattle.std.specs.Prelude.{◌≡◌, ◌<◌, length, IfSome};
ghost use Rattle.cisco_reader.specs.Groups.{group_place, has_kind, place_for};

use crate::fault::{CiscoFault, LineKind, Stop};
use crate::heads::{Head, head_of};
use crate::lines::Line;
use crate::names::Known;
use crate::words::{Words, is};
use std::alloc::Global;
use std::marker::Model;

/// A group: its kind, its name, and its lines. Contracts see a record of its parts.
#[derive(Drop)]
pub(crate) struct Group<'a> {
    kind: &'a [u8],
    name: &'a [u8],
    lines: Vec<Line<'a>>,
}

impl<'a> Model for Group<'a> {
    ghost use Rattle.cisco_reader.specs.Groups.{ListedGroup};

    ghost Value = { ListedGroup };

    ghost view = { λ group. record {
      kind = group.kind.now;
      name = group.name.now;
      lines = group.lines.items;
    } };
}

impl<'a> Group<'a> {
    ghost use Rattle.std.specs.Prelude.{◌≡◌, Ok};
    ghost use Rattle.std.specs.Str.{bytes_eq};
    ghost use Rattle.cisco_reader.specs.Groups.{longer};
    ghost use Rattle.cisco_reader.specs.Read.{Becomes};

    /// Whether it has the name.
    fn is_named(&self, name: &[u8]) -> bool
        ensures { result ≡ bytes_eq self.now.name name.now }
    {
        self.name == name
    }

    /// Whether it is of the kind.
    fn is_of(&self, kind: &[u8]) -> bool
        ensures { result ≡ bytes_eq self.now.kind kind.now }
    {
        self.kind == kind
    }

    /// Its lines.
    pub(crate) fn lines(&self) -> &[Line<'a>]
        ensures { result.now ≡ self.now.lines }
    {
        &self.lines
    }

    /// Puts a line after the others.
    fn push(&mut self, line: Line<'a>) -> Result<(), Stop>
        ensures { Becomes (Ok (longer self.old line.entry)) result self.new }
    {
        self.lines.push(line)?;
        Ok(())
    }
}

/// The place of the group of a name.
fn group_place(groups: &[Group], name: &[u8]) -> Option<usize>
    ensures place { result ≡ group_place name.now groups.now }
    ensures within { IfSome result (λ place. place < length groups.now) }
{
    groups.iter().position(|group| group.is_named(name))
}

/// Whether the group of a place is of a kind.
fn has_kind(kind: &[u8], groups: &[Group], place: usize) -> bool
    requires { place < length groups.now }
    ensures { result ≡ has_kind kind.now groups.now place }
{
    groups[place].is_of(kind)
}

/// The place of the group of a kind and a name.
pub(crate) fn place_for(groups: &[Group], kind: &[u8], name: &[u8]) -> Result<usize, LineKind>
    ensures { result ≡ place_for groups.now kind.now name.now }
{
    match group_place(groups, name) {
        Some(place) => {
            if has_kind(kind, groups, place) {
                Ok(place)
            } else {
                Err(LineKind::OtherKind)
            }
        }
        None => Err(LineKind::NoGroup),
    }
}

/// The groups so far. Contracts see a record of its parts.
#[derive(Drop)]
pub(crate) struct Groups<'a> {
    alloc: Global,
    groups: Vec<Group<'a>>,
    inside: Option<usize>,
}

impl<'a> Model for Groups<'a> {
    ghost use Rattle.cisco_reader.specs.Groups.{GroupsSoFar};

    ghost Value = { GroupsSoFar };

    ghost view = { λ it. record { groups = it.groups.items; inside = it.inside } };
}

impl<'a> Groups<'a> {
    ghost use Rattle.std.specs.Prelude.{◌≡◌, Ok};
    ghost use Rattle.cisco_reader.specs.Groups as meant;
    ghost use Rattle.cisco_reader.specs.Heads.{head_of};
    ghost use Rattle.cisco_reader.specs.Lines.{words_in};
    ghost use Rattle.cisco_reader.specs.Read.{Becomes, Gives};

    /// Nothing was read.
    pub(crate) fn new(alloc: Global) -> Groups<'a>
        ensures { result ≡ meant.no_groups }
    {
        Groups {
            alloc,
            groups: Vec::new(alloc),
            inside: None,
        }
    }

    /// The groups, in the order in which they are begun.
    pub(crate) fn into_groups(self) -> Vec<Group<'a>>
        ensures { result.items ≡ self.entry.groups }
    {
        self.groups
    }

    /// A group of a kind that is known, which may have been begun.
    fn begin(&mut self, kind: &'a [u8], name: &'a [u8]) -> Result<(), Stop>
        ensures { Becomes (meant.begun self.old kind.now name.now
            (meant.group_place name.now self.old.groups)) result self.new }
    {
        match group_place(&self.groups, name) {
            Some(place) => {
                if !has_kind(kind, &self.groups, place) {
                    return Err(LineKind::KindTwice.into());
                }
                self.inside = Some(place);
            }
            None => {
                self.inside = Some(self.groups.len());
                self.groups.push(Group {
                    kind,
                    name,
                    lines: Vec::new(self.alloc),
                })?;
            }
        }
        Ok(())
    }

    /// What stands after `object-group`: a kind and a name.
    fn add_group(&mut self, words: &mut Words<'a>) -> Result<(), Stop>
        ensures { Becomes (meant.with_group self.old words.old) result self.new }
    {
        let Some(kind) = words.next() else {
            return Err(LineKind::BadGroup.into());
        };
        let Some(name) = words.next() else {
            return Err(LineKind::BadGroup.into());
        };
        if words.next().is_some() {
            return Err(LineKind::BadGroup.into());
        }
        if !Known::GroupKind.has(kind) {
            return Err(LineKind::BadGroup.into());
        }
        self.begin(kind, name)
    }

    /// Puts a line into the group of a place.
    fn put(&mut self, line: Line<'a>, place: usize) -> Result<(), Stop>
        ensures { Becomes (Ok (meant.with_put self.old line.entry place)) result self.new }
    {
        if place < self.groups.len() {
            self.groups[place].push(line)?;
        }
        Ok(())
    }

    /// A line that begins nothing.
    fn add_inner(&mut self, line: &Line<'a>) -> Result<(), Stop>
        ensures { Becomes (meant.with_inner line.now self.old (words_in line.now) self.old.inside)
            result self.new }
    {
        let Some(place) = self.inside else {
            return Ok(());
        };
        let Some(word) = line.words().next() else {
            return Ok(());
        };
        if is(word, b"no") {
            return Err(LineKind::TakenOut.into());
        }
        if is(word, b"description") {
            return Ok(());
        }
        self.put(line.again(), place)
    }

    /// A line, by what it is.
    fn add_head(&mut self, line: &Line<'a>) -> Result<(), Stop>
        ensures { Becomes (meant.with_group_head line.now self.old (head_of line.now.text))
            result self.new }
    {
        match head_of(line.text) {
            Head::Group => {
                let mut words = line.words();
                words.next();
                self.add_group(&mut words)
            }
            Head::Entry | Head::Inside => self.add_inner(line),
            Head::Skipped | Head::Unknown => Ok(()),
            Head::Numbered | Head::Named | Head::TakenOut | Head::Part => {
                self.inside = None;
                Ok(())
            }
        }
    }

    /// A line.
    pub(crate) fn add_line(&mut self, line: &Line<'a>) -> Result<(), CiscoFault>
        ensures { Gives (meant.with_group_line self.old line.now) (λ none. self.new) result }
    {
        match self.add_head(line) {
            Ok(()) => Ok(()),
            Err(stop) => Err(stop.at(line.number)),
        }
    }
}
