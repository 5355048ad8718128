//! A rule, statement by statement.

ghost use Rattle.std.specs.Prelude.{◌≡◌, map, option_map};
ghost use Rattle.std.specs.List.{list_any};
ghost use Rattle.json.specs.Value.{value_view as view};
ghost use Rattle.nft_reader.specs.Readings as readings;
ghost use Rattle.nft_reader.specs.Shapes.{text_seen};

use crate::compared::{is_of, is_unequal, protocol_in, sides_of};
use crate::comparison::{Comparison, caught_by};
use crate::fault::{RuleKind, Stop};
use crate::keys::protocol_packets;
use crate::known::{Branch, Known, Outcome};
use crate::sets::{at_name, is_text_in};
use crate::shapes::{len_of, only, said_by, text_in};
use json::Value;
use list_chains::Target;
use list_packets::{Caught, Packets};
use std::alloc::AllocError;
use std::marker::Model;

/// What a rule says so far. Contracts see a record of its parts.
#[derive(Drop)]
pub(crate) struct Reading {
    compared: Vec<Comparison>,
    /// Why no rule file says it.
    cause: Option<RuleKind>,
    /// What becomes of packets.
    branches: Vec<Branch>,
    /// Whether it has a verdict or a map.
    decides: bool,
}

impl Model for Reading {
    ghost use Rattle.nft_reader.specs.Readings.{ReadRule};

    ghost Value = { ReadRule };

    ghost view = { λ reading. record {
      compared = reading.compared.items;
      cause = reading.cause;
      branches = reading.branches.items;
      decides = reading.decides;
    } };
}

/// What a rule says: what becomes of packets, and why no rule file says it. Contracts see a record
/// of both.
#[derive(Drop)]
pub(crate) struct Said {
    pub(crate) branches: Vec<Branch>,
    pub(crate) cause: Option<RuleKind>,
}

impl Model for Said {
    ghost use Rattle.nft_reader.specs.Readings.{SaidRule};

    ghost Value = { SaidRule };

    ghost view = { λ said. record { branches = said.branches.items; cause = said.cause } };
}

/// The protocol of TCP.
const TCP: u64 = 6;

impl Reading {
    ghost use Rattle.std.specs.Prelude.{◌≡◌, IfOk, OnOk};
    ghost use Rattle.json.specs.Value.{value_view as view};
    ghost use Rattle.nft_reader.specs.Known.{asked_of, known_of};
    ghost use Rattle.nft_reader.specs.Readings as readings;
    ghost use Rattle.nft_reader.specs.Stops.{Leaves};

    /// A cause why no rule file says it, of which the first counts.
    fn put_cause(&mut self, kind: RuleKind)
        ensures { self.new ≡ readings.with_cause kind self.old }
    {
        if self.cause.is_none() {
            self.cause = Some(kind);
        }
    }

    /// Packets in one of some boxes.
    fn keep(&mut self, boxes: Vec<Packets>) -> Result<(), AllocError>
        ensures { OnOk result (self.new ≡ readings.with_packets boxes.items self.old) }
    {
        self.compared.push(Comparison {
            negated: false,
            boxes,
        })?;
        Ok(())
    }

    /// Packets of a protocol, if there is one.
    fn keep_protocol(
        &mut self,
        known: &Known<'_, '_, '_>,
        protocol: Option<u64>,
    ) -> Result<(), AllocError>
        ensures { OnOk result (self.new
            ≡ readings.of_protocol (asked_of known.now).family protocol self.old) }
    {
        let Some(number) = protocol else {
            return Ok(());
        };
        let mut boxes = Vec::new(known.alloc);
        boxes.push(protocol_packets(known.asked.family, number))?;
        self.keep(boxes)
    }

    /// All of the packets, or none.
    fn keep_if(&mut self, known: &Known<'_, '_, '_>, is_so: bool) -> Result<(), AllocError>
        ensures { OnOk result (self.new ≡ readings.of_truth is_so self.old) }
    {
        if is_so {
            return Ok(());
        }
        self.keep(Vec::new(known.alloc))
    }

    /// Whether a comparison leaves packets alone whose protocols have ports.
    fn keeps_ported(&self) -> bool
        ensures { result ≡ readings.keeps_ported self.now }
    {
        self.compared
            .iter()
            .any(|comparison| comparison.leaves_ported())
    }

    /// What is known after its comparisons.
    fn told<'k, 's, 'a>(&self, known: &Known<'k, 's, 'a>) -> Known<'k, 's, 'a>
        ensures { known_of result ≡ readings.told (known_of known.now) self.now }
    {
        Known {
            alloc: known.alloc,
            asked: known.asked,
            assumed: known.assumed,
            sets: known.sets,
            chains: known.chains,
            owner: known.owner,
            handle: known.handle,
            begin: known.begin,
            ported: self.keeps_ported(),
        }
    }

    /// A comparison, of packets of the protocol that have what it compares.
    fn add_match<'a>(
        &mut self,
        known: &Known<'_, '_, 'a>,
        said: &Value<'a>,
    ) -> Result<(), AllocError>
        ensures { OnOk result
            (self.new ≡ readings.with_match (known_of known.now) (view said.now) self.old) }
    {
        let compared = self.told(known).compared(said);
        self.keep_protocol(known, protocol_in(known.asked.family, said))?;
        match compared {
            Ok(comparison) => self.compared.push(comparison)?,
            Err(Stop::Told(kind)) => self.put_cause(kind),
            Err(Stop::OutOfMemory) => return Err(AllocError),
        }
        Ok(())
    }

    /// What becomes of the packets that it catches.
    fn decide(&mut self, known: &Known<'_, '_, '_>, does: Outcome) -> Result<(), AllocError>
        ensures { OnOk result
            (self.new ≡ readings.decided (asked_of known.now).family does self.old) }
    {
        let caught = caught_by(known.alloc, known.asked.family, &self.compared)?;
        self.branches.push(Branch { caught, does })?;
        self.decides = true;
        Ok(())
    }

    /// Whether a comparison names protocols, of which one isn't TCP.
    fn names_others(&self) -> bool
        ensures { result ≡ readings.names_others self.now }
    {
        self.compared
            .iter()
            .any(|comparison| comparison.names_other(TCP))
    }

    /// Packets of TCP alone, which get a reset. If the rule names other protocols too, the kernel
    /// drops their packets, and no rule file says it.
    fn keep_reset(&mut self, known: &Known<'_, '_, '_>) -> Result<(), AllocError>
        ensures { OnOk result
            (self.new ≡ readings.of_reset (asked_of known.now).family self.old) }
    {
        if self.names_others() {
            self.put_cause(RuleKind::CantSay);
            return Ok(());
        }
        self.keep_protocol(known, Some(TCP))
    }

    /// Packets that get an answer of a type.
    fn keep_answered(&mut self, known: &Known<'_, '_, '_>, kind: &str) -> Result<(), Stop<RuleKind>>
        ensures { Leaves result self.new
            (readings.of_answer (asked_of known.now).family kind.now self.old) }
    {
        match kind {
            "icmpx" => {}
            "icmp" => self.keep_if(known, is_of(known.asked.family, true))?,
            "icmpv6" => self.keep_if(known, is_of(known.asked.family, false))?,
            "tcp reset" => self.keep_reset(known)?,
            _ => return Err(Stop::Told(RuleKind::BadStatement)),
        }
        Ok(())
    }

    /// An answer to the sender.
    fn reject(&mut self, known: &Known<'_, '_, '_>, said: &Value<'_>) -> Result<(), Stop<RuleKind>>
        ensures { Leaves result self.new
            (readings.rejected (known_of known.now) (view said.now) self.old) }
    {
        let kind = answer_type(said).ok_or(RuleKind::BadStatement)?;
        self.keep_answered(known, kind)?;
        self.decide(known, known.decision(3))?;
        Ok(())
    }

    /// What becomes of the packets of a map's elements.
    fn add_map<'a>(
        &mut self,
        known: &Known<'_, '_, 'a>,
        said: &Value<'a>,
    ) -> Result<(), Stop<RuleKind>>
        ensures { Leaves result self.new
            (readings.with_map (known_of known.now) (view said.now) self.old) }
    {
        let looking = self.told(known).looked_up(said, &self.compared)?;
        self.branches = looking.branches;
        self.decides = true;
        Ok(())
    }

    /// A verdict, unless packets go on.
    fn add_verdict(
        &mut self,
        known: &Known<'_, '_, '_>,
        name: &str,
        said: &Value<'_>,
    ) -> Result<(), Stop<RuleKind>>
        ensures { Leaves result self.new
            (readings.with_verdict (known_of known.now) name.now (view said.now) self.old) }
    {
        if let Some(does) = known.outcome_of(name, said)? {
            self.decide(known, does)?;
        }
        Ok(())
    }

    /// A statement that says nothing but its name, or a verdict.
    fn add_word(
        &mut self,
        known: &Known<'_, '_, '_>,
        name: &str,
        said: &Value<'_>,
    ) -> Result<(), Stop<RuleKind>>
        ensures { Leaves result self.new
            (readings.with_word (known_of known.now) name.now (view said.now) self.old) }
    {
        match name {
            "counter" | "log" => {}
            "limit" => self.put_cause(RuleKind::Rate),
            "set" => self.put_cause(RuleKind::ChangingSet),
            _ => return self.add_verdict(known, name, said),
        }
        Ok(())
    }

    /// A statement by its name and what it says.
    fn add_named<'a>(
        &mut self,
        known: &Known<'_, '_, 'a>,
        name: &str,
        said: &Value<'a>,
    ) -> Result<(), Stop<RuleKind>>
        ensures { Leaves result self.new
            (readings.with_named (known_of known.now) name.now (view said.now) self.old) }
    {
        match name {
            "match" => {
                self.add_match(known, said)?;
                Ok(())
            }
            "reject" => self.reject(known, said),
            "vmap" => self.add_map(known, said),
            _ => self.add_word(known, name, said),
        }
    }

    /// A statement, which doesn't stand after one that decides, or after a map.
    fn add_statement<'a>(
        &mut self,
        known: &Known<'_, '_, 'a>,
        statement: &Value<'a>,
    ) -> Result<(), Stop<RuleKind>>
        ensures { Leaves result self.new
            (readings.with_statement (known_of known.now) self.old (view statement.now)) }
    {
        if self.decides {
            return Err(Stop::Told(RuleKind::AfterVerdict));
        }
        let (name, said) = only(statement).ok_or(RuleKind::BadStatement)?;
        self.add_named(known, name, said)
    }

    /// What the rule says, unless there is a cause why no rule file says it.
    fn into_said(self, known: &Known<'_, '_, '_>) -> Result<Said, AllocError>
        ensures { IfOk result
            (λ said. said ≡ readings.said_if (known_of known.now) self self.cause) }
    {
        match self.cause {
            Some(kind) if self.decides => {
                let caught = caught_by(known.alloc, known.asked.family, &self.compared)?;
                known.unsaid(kind, caught)
            }
            _ => Ok(Said {
                branches: self.branches,
                cause: None,
            }),
        }
    }
}

/// Whether a value is no list of several, no range and no set.
fn is_single(value: &Value<'_>) -> bool
    ensures { result ≡ readings.is_single (view value.now) }
{
    only(value).is_none()
        && value
            .as_str()
            .and_then(|text| at_name(text.as_bytes()))
            .is_none()
}

/// Whether what is compared is the port of a name.
fn is_port(name: &str, left: &Value<'_>) -> bool
    ensures { result ≡ readings.is_port name.now (view left.now) }
{
    match said_by("payload", left) {
        Some(said) => is_text_in("field", name, said),
        None => false,
    }
}

/// Whether a statement says that the port of a name isn't one number.
fn has_other_port(name: &str, statement: &Value<'_>) -> bool
    ensures { result ≡ readings.has_other_port name.now (view statement.now) }
{
    match said_by("match", statement).and_then(sides_of) {
        Some(sides) => {
            is_unequal(sides.operator) && is_port(name, sides.left) && is_single(sides.right)
        }
        None => false,
    }
}

/// Whether one of some statements does.
fn any_has_other_port(name: &str, statements: &[Value<'_>]) -> bool
    ensures { result
        ≡ list_any (λ statement. readings.has_other_port name.now (view statement)) statements.now }
{
    statements
        .iter()
        .any(|statement| has_other_port(name, statement))
}

/// Whether one of the statements of a rule does.
fn one_has_other_port(name: &str, statements: &[Value<'_>]) -> bool
    ensures { result
        ≡ list_any (readings.has_other_port name.now) (map view statements.now) }
{
    any_has_other_port(name, statements)
}

/// Whether a rule says it of both ports.
fn has_port_pair(statements: &[Value<'_>]) -> bool
    ensures { result ≡ readings.has_port_pair (map view statements.now) }
{
    one_has_other_port("sport", statements) && one_has_other_port("dport", statements)
}

/// The type of an answer. The usual one is that of both families.
fn answer_type<'a>(said: &Value<'a>) -> Option<&'a str>
    ensures { option_map text_seen result ≡ readings.answer_type (view said.now) }
{
    if len_of(said) == 0 {
        return Some("icmpx");
    }
    text_in("type", said)
}

impl<'k, 's, 'a> Known<'k, 's, 'a> {
    ghost use Rattle.std.specs.Prelude.{◌≡◌, map, IfOk};
    ghost use Rattle.json.specs.Value.{value_view as view};
    ghost use Rattle.nft_reader.specs.Known.{asked_of, known_of};
    ghost use Rattle.nft_reader.specs.Readings as readings;
    ghost use Rattle.nft_reader.specs.Stops.{Gives, folded};

    /// A rule that no rule file says: its packets are led to no chain.
    fn unsaid(&self, kind: RuleKind, caught: Caught) -> Result<Said, AllocError>
        ensures { IfOk result (λ said. said ≡ readings.unsaid (known_of self.now) kind caught) }
    {
        let does = Outcome {
            answer: self.handle,
            target: Target::Jump(usize::MAX),
        };
        let mut branches = Vec::new(self.alloc);
        branches.push(Branch { caught, does })?;
        Ok(Said {
            branches,
            cause: Some(kind),
        })
    }

    /// The statements of a rule, one after the other.
    fn read_all(&self, statements: &[Value<'a>]) -> Result<Reading, Stop<RuleKind>>
        ensures { Gives result (folded (readings.with_statement (known_of self.now))
            readings.no_reading (map view statements.now)) }
    {
        let mut reading = Reading {
            compared: Vec::new(self.alloc),
            cause: None,
            branches: Vec::new(self.alloc),
            decides: false,
        };
        for statement in statements {
            reading.add_statement(self, statement)?;
        }
        Ok(reading)
    }

    /// What the statements of a rule say.
    pub(crate) fn read(&self, statements: &[Value<'a>]) -> Result<Said, AllocError>
        ensures { IfOk result (λ said. said
            ≡ readings.with_statements (known_of self.now) (map view statements.now)) }
    {
        if has_port_pair(statements) {
            let all = Caught::all(self.alloc, self.asked.family)?;
            return self.unsaid(RuleKind::PortPair, all);
        }
        match self.read_all(statements) {
            Ok(reading) => reading.into_said(self),
            Err(Stop::Told(kind)) => self.unsaid(kind, Caught::all(self.alloc, self.asked.family)?),
            Err(Stop::OutOfMemory) => Err(AllocError),
        }
    }
}
