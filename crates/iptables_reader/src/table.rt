//! A table, line by line, and its chains.

ghost use Rattle.std.specs.Prelude.{◌≡◌, ◌⊎◌, ◌<◌, false, length, map, nat_lt, IfErr, IfOk, IfSome, Ok, Err};
ghost use Rattle.iptables_reader.specs.Chains.{place_of};
ghost use Rattle.iptables_reader.specs.Stops.{Tells};
ghost use Rattle.iptables_reader.specs.Table.{assumes_any_lacking, begins, chains_of, is_ruling, is_skipped, list_of, max_list};
ghost use Rattle.iptables_reader.specs.declared.fault.LineFault.{LineFault};

use crate::answers::Asked;
use crate::chain::{SavedChain, place_of};
use crate::declaration::{declaration, policy};
use crate::fault::{IptablesFault, LineFault, LineKind, Stop};
use crate::head::head;
use crate::named_chains::NamedChains;
use crate::option_values::assumes_lacking;
use crate::reached::unsaid_from;
use crate::reading::options;
use crate::saved_tables::{
    SavedTable, drops, hides_tables, is_drop, is_on_way, table_bit, table_named,
};
use crate::setting::Setting;
use crate::words::is;
use list_chains::Chain;
use list_packets::End;
use std::alloc::{AllocError, Global};
use std::marker::Model;
use text_scan::split_line;

/// How many bytes a list may have.
pub const MAX_LIST: usize = 16_777_216;

/// How far a list was read.
#[derive(Clone, Copy)]
pub(crate) enum Stage {
    /// No table is open.
    Outside,
    /// Chains are declared.
    Declaring,
    /// Rules follow.
    Ruling,
}

/// What was read of a list. Contracts see a record without the memory.
#[derive(Drop)]
pub(crate) struct Table<'a> {
    alloc: Global,
    asked: Asked,
    assumed: &'a [u8],
    /// The name of the chain whose packets are asked for.
    name: &'a [u8],
    /// The number of the last line that was read.
    number: u32,
    stage: Stage,
    /// The table that is open, or was last, and the bits of those that came.
    last: SavedTable,
    given: u32,
    /// The chains of `filter`, and those of the last other table.
    chains: NamedChains,
    others: NamedChains,
}

impl<'a> Model for Table<'a> {
    ghost use Rattle.iptables_reader.specs.Table.{TableSoFar};

    ghost Value = { TableSoFar };

    ghost view = { λ table. record {
      asked = table.asked;
      assumed = table.assumed.now;
      name = table.name.now;
      number = table.number;
      stage = table.stage;
      last = table.last;
      given = table.given;
      chains = table.chains;
      others = table.others;
    } };
}

impl<'a> Table<'a> {
    ghost use Rattle.std.specs.Prelude.{◌≡◌, ◌+◌, ◌^◌, ◌<◌, IfErr, IfOk, Ok, Err};
    ghost use Rattle.iptables_reader.specs.Stops.{Makes, Tells};
    ghost use Rattle.iptables_reader.specs.Table as table;

    /// Nothing was read.
    fn new(alloc: Global, asked: Asked, assumed: &'a [u8], name: &'a [u8]) -> Table<'a>
        ensures { result ≡ table.no_table asked assumed.now name.now }
    {
        Table {
            alloc,
            asked,
            assumed,
            name,
            number: 0,
            stage: Stage::Outside,
            last: SavedTable::Filter,
            given: 0,
            chains: NamedChains::new(alloc),
            others: NamedChains::new(alloc),
        }
    }

    /// One line more is read.
    fn count(&mut self)
        requires { self.old.number + 1 < 2 ^ 32 }
        ensures { self.new ≡ table.counted self.old }
    {
        self.number += 1;
    }

    /// The fault of the last line that was read.
    fn fault(&self, kind: LineKind) -> LineFault
        ensures { result ≡ record { line = self.now.number; kind = kind } }
    {
        LineFault {
            line: self.number,
            kind,
        }
    }

    /// The chains, where the last table has ended, and `filter` came. Else the last line is at
    /// fault.
    fn ended(self) -> Result<Vec<SavedChain>, LineFault>
        ensures chains { IfOk result (λ chains.
            table.ended self.entry self.entry.stage ≡ Ok chains.items) }
        ensures fault { IfErr result (λ fault.
            table.ended self.entry self.entry.stage ≡ Err fault) }
    {
        match self.stage {
            Stage::Outside => {
                if self.given & table_bit(SavedTable::Filter) == 0 {
                    return Err(self.fault(LineKind::NoFilter));
                }
                Ok(self.chains.into_chains())
            }
            Stage::Declaring | Stage::Ruling => Err(self.fault(LineKind::NoCommit)),
        }
    }

    /// A line, which was counted.
    fn add_line(&mut self, line: &[u8]) -> Result<(), Stop>
        ensures made { Makes (table.with_line self.old line.now) self.new result }
        ensures number { self.new.number ≡ self.old.number }
    {
        if hides_tables(line) {
            return Err(Stop::Faulty(LineKind::MayDrop));
        }
        if is_skipped(line) {
            return Ok(());
        }
        match self.stage {
            Stage::Outside => self.begin(line),
            Stage::Declaring | Stage::Ruling => self.add_inside(line),
        }
    }

    /// A line that begins a table.
    fn begin(&mut self, line: &[u8]) -> Result<(), Stop>
        ensures made { Makes (table.begun self.old line.now) self.new result }
        ensures number { self.new.number ≡ self.old.number }
    {
        if !begins(b'*', line) {
            return Err(Stop::Faulty(LineKind::NoTable));
        }
        let which = table_named(&line[1..]).ok_or(Stop::Faulty(LineKind::OtherTable))?;
        self.begin_table(which)
    }

    /// A table, which comes once.
    fn begin_table(&mut self, which: SavedTable) -> Result<(), Stop>
        ensures made { Makes (table.with_begun self.old which) self.new result }
        ensures number { self.new.number ≡ self.old.number }
    {
        if self.given & table_bit(which) != 0 {
            return Err(Stop::Faulty(LineKind::SecondTable));
        }
        self.stage = Stage::Declaring;
        self.last = which;
        self.given |= table_bit(which);
        self.others = NamedChains::new(self.alloc);
        Ok(())
    }

    /// A line of the last table, or its end.
    fn add_inside(&mut self, line: &[u8]) -> Result<(), Stop>
        ensures made { Makes (table.with_inside self.old line.now) self.new result }
        ensures number { self.new.number ≡ self.old.number }
    {
        if is(line, b"COMMIT") {
            self.stage = Stage::Outside;
            return Ok(());
        }
        match self.last {
            SavedTable::Filter => self.add_to_filter(line),
            SavedTable::Raw | SavedTable::Mangle | SavedTable::Nat | SavedTable::Security => {
                self.add_elsewhere(line)
            }
        }
    }

    /// A line of `filter`: a chain, or a rule.
    fn add_to_filter(&mut self, line: &[u8]) -> Result<(), Stop>
        ensures made { Makes (table.with_filter_line self.old line.now) self.new result }
        ensures number { self.new.number ≡ self.old.number }
    {
        if begins(b':', line) {
            return self.declare(&line[1..]);
        }
        self.add_rule(line)
    }

    /// A line of another table.
    fn add_elsewhere(&mut self, line: &[u8]) -> Result<(), Stop>
        ensures made { Makes (table.with_other_line self.old line.now) self.new result }
        ensures number { self.new.number ≡ self.old.number }
    {
        if begins(b':', line) {
            return self.declare_elsewhere(&line[1..]);
        }
        self.add_other_rule(line)
    }

    /// A line that declares a chain of `filter`, after its `:`.
    fn declare(&mut self, text: &[u8]) -> Result<(), Stop>
        ensures made { Makes (table.with_declaration self.old text.now) self.new result }
        ensures number { self.new.number ≡ self.old.number }
    {
        if is_ruling(self.stage) {
            return Err(Stop::Faulty(LineKind::LateChain));
        }
        let (name, word) = declaration(text)?;
        if self.chains.place_of(name, false).is_some() {
            return Err(Stop::Faulty(LineKind::ChainTwice));
        }
        let policy = policy(self.asked, self.number, self.last, name, word)?;
        self.chains.push(self.alloc, name, policy)?;
        Ok(())
    }

    /// One of another table, whose policy doesn't drop where packets of the chain come by.
    fn declare_elsewhere(&mut self, text: &[u8]) -> Result<(), Stop>
        ensures made { Makes (table.with_other_declaration self.old text.now) self.new result }
        ensures number { self.new.number ≡ self.old.number }
    {
        if is_ruling(self.stage) {
            return Err(Stop::Faulty(LineKind::LateChain));
        }
        let (name, word) = declaration(text)?;
        if self.others.place_of(name, false).is_some() {
            return Err(Stop::Faulty(LineKind::ChainTwice));
        }
        let policy = policy(self.asked, self.number, self.last, name, word)?;
        if is_drop(word) && is_on_way(self.last, self.name, name) {
            return Err(Stop::Faulty(LineKind::MayDrop));
        }
        self.others.push(self.alloc, name, policy)?;
        Ok(())
    }

    /// A line of a rule of another table, which doesn't drop packets that come by.
    fn add_other_rule(&mut self, line: &[u8]) -> Result<(), Stop>
        ensures made { Makes (table.with_other_rule self.old line.now) self.new result }
        ensures number { self.new.number ≡ self.old.number }
    {
        let (place, text) = head(&self.others, line)?;
        let chain = self.others.name(place);
        let setting = Setting {
            alloc: self.alloc,
            family: self.asked.family,
            assumed: b"".as_slice(),
            table: self.last,
            chains: &self.others,
            chain,
        };
        let reading = options(&setting, text)?;
        if drops(reading.act) && is_on_way(self.last, self.name, chain) {
            return Err(Stop::Faulty(LineKind::MayDrop));
        }
        self.stage = Stage::Ruling;
        Ok(())
    }

    /// A line of a rule.
    fn add_rule(&mut self, line: &[u8]) -> Result<(), Stop>
        ensures made { Makes (table.with_rule self.old line.now) self.new result }
        ensures number { self.new.number ≡ self.old.number }
    {
        let (place, text) = head(&self.chains, line)?;
        let setting = Setting {
            alloc: self.alloc,
            family: self.asked.family,
            assumed: self.assumed,
            table: self.last,
            chains: &self.chains,
            chain: self.chains.name(place),
        };
        let reading = options(&setting, text)?;
        self.stage = Stage::Ruling;
        self.chains
            .add_line(self.alloc, self.asked, self.number, place, &reading)?;
        Ok(())
    }
}

/// Whether rules follow the chains.
fn is_ruling(stage: Stage) -> bool
    ensures { result ≡ is_ruling stage }
{
    matches!(stage, Stage::Ruling)
}

/// Whether a line is empty or a comment.
fn is_skipped(line: &[u8]) -> bool
    ensures { result ≡ is_skipped line.now }
{
    matches!(line, [] | [b'#', ..])
}

/// Whether a line begins with a byte.
fn begins(byte: u8, line: &[u8]) -> bool
    ensures { result ≡ begins byte line.now }
{
    match line {
        [first, ..] => *first == byte,
        [] => false,
    }
}

/// The chains of a list of iptables-save or ip6tables-save, for packets that come to the chain
/// `name`, or a faulty line.
///
/// `bytes` holds the whole list, at most [`MAX_LIST`] bytes. Lines end at LF or CR LF, and the last
/// one may lack it. Empty lines and comments say nothing. The list has tables, each once, in any
/// order: `*filter`, the chains, their rules, and COMMIT. The chains are those of `filter`.
///
/// The others are `raw`, `mangle`, `nat` and `security`. Their lines are read likewise. It is a
/// fault if one of them may drop packets of `name`: by the policy DROP, or a rule with DROP or
/// REJECT, whatever it matches. The chain is one that these packets come to by the hooks of
/// netfilter, or any that rules lead to. Targets that aren't known are faults. So are comments by
/// which the list lacks tables: "# Table `..", and those that name legacy iptables.
///
/// Each rule is read from left to right. Its options are those on addresses, protocols and ports,
/// on interfaces, states and types of addresses, as far as they are assumed, and of targets. Other
/// matches of iptables-extensions(8) are known by the names of their options, whose values aren't
/// looked at. No rule file says them, so such a rule is a fault if packets of `name` may come to
/// its chain by jumps, and has no part else. Nor has a rule that passes packets on, or that none
/// meets. Whatever else stands in any rule is a fault.
///
/// `assumed` is what is assumed of all packets, as `in=eth0,out=eth1,state=new,local=10.0.0.1`, or
/// empty; [`is_assumption`](list_packets::is_assumption) tells whether a text is one. If no chain
/// has the name, all of them are given.
///
/// `Line` comes exactly where an interface is assumed that packets of `name` lack, or the file is
/// too long (line 0), some line is faulty (the first one, with its first fault), a table doesn't
/// end or `filter` isn't there (the last line), or no rule file says a line that packets of `name`
/// may come to (the first one), as long as memory lasts. It takes memory for the rules of the
/// chains, for each name twice, and for two marks a chain.
pub fn read_chains(
    alloc: Global,
    bytes: &[u8],
    asked: Asked,
    assumed: &[u8],
    name: &[u8],
) -> Result<Vec<SavedChain>, IptablesFault>
    ensures chains { IfOk result
        (λ chains. chains_of asked assumed.now name.now bytes.now ≡ Ok chains.items) }
    ensures line { (fault : LineFault) → result ≡ Err (IptablesFault.Line fault)
        → chains_of asked assumed.now name.now bytes.now ≡ Err fault }
    ensures refused { (fault : LineFault)
        → chains_of asked assumed.now name.now bytes.now ≡ Err fault
        → (result ≡ Err (IptablesFault.Line fault)) ⊎ (result ≡ Err IptablesFault.OutOfMemory) }
{
    if assumes_any_lacking(name, assumed) {
        return Err(IptablesFault::Line(LineFault {
            line: 0,
            kind: LineKind::LacksInterface,
        }));
    }
    match read_list(alloc, bytes, asked, assumed, name) {
        Ok(chains) => match unsaid_from(alloc, &chains, name)? {
            Some(fault) => Err(IptablesFault::Line(fault)),
            None => Ok(chains),
        },
        Err(fault) => Err(fault),
    }
}

/// Whether an interface is assumed that packets of a chain lack.
fn assumes_any_lacking(name: &[u8], assumed: &[u8]) -> bool
    ensures { result ≡ assumes_any_lacking name.now assumed.now }
{
    assumes_lacking(name, assumed, End::Source) || assumes_lacking(name, assumed, End::Destination)
}

/// All chains of the table `filter` of a list, or the first faulty line.
fn read_list(
    alloc: Global,
    bytes: &[u8],
    asked: Asked,
    assumed: &[u8],
    name: &[u8],
) -> Result<Vec<SavedChain>, IptablesFault>
    ensures chains { IfOk result
        (λ chains. list_of asked assumed.now name.now bytes.now ≡ Ok chains.items) }
    ensures fault { IfErr result (Tells (list_of asked assumed.now name.now bytes.now)) }
{
    if is_too_long(bytes) {
        return Err(IptablesFault::Line(LineFault {
            line: 0,
            kind: LineKind::FileTooLong,
        }));
    }
    let mut table = Table::new(alloc, asked, assumed, name);
    let mut left = bytes;
    while let Some((line, rest)) = split_line(left) {
        table.count();
        match table.add_line(line) {
            Ok(()) => left = rest,
            Err(Stop::Faulty(kind)) => return Err(IptablesFault::Line(table.fault(kind))),
            Err(Stop::OutOfMemory) => return Err(IptablesFault::OutOfMemory),
        }
    }
    match table.ended() {
        Ok(chains) => Ok(chains),
        Err(fault) => Err(IptablesFault::Line(fault)),
    }
}

/// Whether a list has more bytes than it may have.
fn is_too_long(bytes: &[u8]) -> bool
    ensures { result ≡ nat_lt max_list (length bytes.now) }
{
    bytes.len() > MAX_LIST
}

/// The place of the chain of a name. It takes no memory.
pub fn chain_place(chains: &[SavedChain], name: &[u8]) -> Option<usize>
    ensures place { result ≡ place_of false name.now chains.now }
    ensures within { IfSome result (λ place. place < length chains.now) }
{
    place_of(chains, name, false)
}

/// The chains as `list_chains` takes them. It takes the memory of a chain for each.
pub fn chains_alone(alloc: Global, saved: Vec<SavedChain>) -> Result<Vec<Chain>, AllocError>
    ensures { IfOk result (λ chains. chains.items ≡ map (λ chain. chain.rules) saved.items) }
{
    let mut chains = Vec::new(alloc);
    for chain in saved {
        chains.push(chain.into_chain())?;
    }
    Ok(chains)
}
