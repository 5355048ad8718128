//! What rules do to packets of other base chains.

ghost use Rattle.std.specs.Prelude.{◌≡◌, option_map};
ghost use Rattle.json.specs.Value.{value_view as view};
ghost use Rattle.nft_reader.specs.Compared.{sides_seen};
ghost use Rattle.nft_reader.specs.Effects as listed;
ghost use Rattle.nft_reader.specs.Shapes.{text_seen};

use crate::chain::Lead;
use crate::compared::{Fact, Left, Sides, is_ip4, is_negated, is_of, left_of, sides_of};
use crate::known::Known;
use crate::sets::is_text_in;
use crate::shapes::{only, pair_of, said_by, text_in};
use field_defs::Family;
use json::Value;
use std::alloc::AllocError;
use std::marker::Model;

/// What a rule does so far: whether no packets come to what follows in it, whether it may drop
/// some, and which chains it leads to. Contracts see a record of these.
#[derive(Drop)]
pub(crate) struct Effects {
    over: bool,
    pub(crate) stops: bool,
    pub(crate) leads: Vec<Lead>,
}

impl Model for Effects {
    ghost use Rattle.nft_reader.specs.Effects as listed;

    ghost Value = { listed.Effects };

    ghost view = { λ effects. record {
      over = effects.over;
      stops = effects.stops;
      leads = effects.leads.items;
    } };
}

/// Whether a comparison of the family is true of no packet.
fn misses(family: Family, negated: Option<bool>, is_ip4: Option<bool>) -> bool
    ensures { result ≡ listed.misses family negated is_ip4 }
{
    match (negated, is_ip4) {
        (Some(negated), Some(is_ip4)) => {
            let is_own = is_of(family, is_ip4);
            if negated { is_own } else { !is_own }
        }
        _ => false,
    }
}

/// Whether no packet has what is compared.
fn misses_side(family: Family, sides: Sides<'_, '_>, left: Option<Left>) -> bool
    ensures { result ≡ listed.misses_side family (sides_seen sides.entry) left }
{
    match left {
        Some(Left::OtherFamily) => true,
        Some(Left::Fact(Fact::Nfproto)) => misses(
            family,
            is_negated(sides.operator),
            sides.right.as_str().and_then(is_ip4),
        ),
        _ => false,
    }
}

/// Whether a statement compares so that packets of the family don't come to what follows.
fn is_missed(family: Family, statement: &Value<'_>) -> bool
    ensures { result ≡ listed.is_missed family (view statement.now) }
{
    match said_by("match", statement).and_then(sides_of) {
        Some(sides) => misses_side(family, sides, left_of(family, sides.left)),
        None => false,
    }
}

/// Whether packets go on by a verdict.
fn lets_go(name: &str) -> bool
    ensures { result ≡ listed.lets_go name.now }
{
    matches!(name, "accept" | "return" | "continue")
}

/// Whether a statement compares, counts or measures.
fn is_measuring(name: &str) -> bool
    ensures { result ≡ listed.is_measuring name.now }
{
    matches!(
        name,
        "match" | "counter" | "log" | "limit" | "quota" | "ct count"
    )
}

/// Whether it keeps what it saw, or sends a copy.
fn is_keeping(name: &str) -> bool
    ensures { result ≡ listed.is_keeping name.now }
{
    matches!(name, "set" | "map" | "meter" | "last" | "dup")
}

/// Whether it changes packets, or a mark.
fn is_changing(name: &str) -> bool
    ensures { result ≡ listed.is_changing name.now }
{
    matches!(name, "mangle" | "snat" | "dnat" | "masquerade" | "redirect")
}

/// Whether it changes what is known of a connection.
fn is_tracking(name: &str) -> bool
    ensures { result ≡ listed.is_tracking name.now }
{
    matches!(
        name,
        "notrack" | "ct helper" | "ct timeout" | "ct expectation" | "secmark"
    )
}

/// Whether a statement doesn't end a packet's way.
fn is_quiet(name: &str) -> bool
    ensures { result ≡ listed.is_quiet name.now }
{
    is_measuring(name) || is_keeping(name) || is_changing(name) || is_tracking(name)
}

/// Whether a target of iptables lets packets go on.
fn is_quiet_target(name: &str) -> bool
    ensures { result ≡ listed.is_quiet_target name.now }
{
    matches!(
        name,
        "LOG" | "NFLOG" | "MARK" | "CONNMARK" | "TRACE" | "CHECKSUM"
    )
}

/// Whether it is one, if there is one.
fn is_quiet_named(name: Option<&str>) -> bool
    ensures { result ≡ listed.is_quiet_named (option_map text_seen name.entry) }
{
    match name {
        Some(name) => is_quiet_target(name),
        None => false,
    }
}

/// Whether a part of a rule of iptables does.
fn is_quiet_part(said: &Value<'_>) -> bool
    ensures { result ≡ listed.is_quiet_part (view said.now) }
{
    is_text_in("type", "match", said) || is_quiet_named(text_in("name", said))
}

impl Effects {
    ghost use Rattle.std.specs.Prelude.{◌≡◌, OnOk, codes, fold, map, true};
    ghost use Rattle.json.specs.Find.{get};
    ghost use Rattle.json.specs.Value.{value_view as view};
    ghost use Rattle.nft_reader.specs.Effects as listed;
    ghost use Rattle.nft_reader.specs.Known.{known_elements, known_of};

    /// A verdict, by which packets go on, are led to a chain, or may be dropped.
    fn add_verdict(
        &mut self,
        known: &Known<'_, '_, '_>,
        name: &str,
        said: &Value<'_>,
    ) -> Result<(), AllocError>
        ensures { OnOk result (self.new
            ≡ listed.with_verdict_effect (known_of known.now) name.now (view said.now) self.old) }
    {
        if lets_go(name) {
            return Ok(());
        }
        if !matches!(name, "jump" | "goto") {
            self.stops = true;
            return Ok(());
        }
        let Some(place) = known.led_to(said) else {
            self.stops = true;
            return Ok(());
        };
        self.leads.push(Lead {
            handle: known.handle,
            place,
        })?;
        Ok(())
    }

    /// An element of a map.
    fn add_element(
        &mut self,
        known: &Known<'_, '_, '_>,
        element: &Value<'_>,
    ) -> Result<(), AllocError>
        ensures { OnOk result (self.new
            ≡ listed.with_element_effect (known_of known.now) self.old (view element.now)) }
    {
        match pair_of(element).and_then(|(_, verdict)| only(verdict)) {
            Some((name, said)) => self.add_verdict(known, name, said),
            None => {
                self.stops = true;
                Ok(())
            }
        }
    }

    /// The elements of a map.
    fn add_elements<'a>(
        &mut self,
        known: &Known<'_, '_, 'a>,
        elements: &[Value<'a>],
    ) -> Result<(), AllocError>
        ensures { OnOk result (self.new ≡ fold (listed.with_element_effect (known_of known.now))
            self.old (map view elements.now)) }
    {
        for element in elements {
            self.add_element(known, element)?;
        }
        Ok(())
    }

    /// A map by what it looks up.
    fn add_map<'a>(
        &mut self,
        known: &Known<'_, '_, 'a>,
        found: &Value<'a>,
    ) -> Result<(), AllocError>
        ensures { OnOk result (self.new ≡ listed.with_elements_effect (known_of known.now) self.old
            (known_elements (known_of known.now) true (view found.now))) }
    {
        match known.elements(true, found) {
            Ok(elements) => self.add_elements(known, elements),
            // Whatever the cause is, elements that aren't known may drop.
            Err(_cause) => {
                self.stops = true;
                Ok(())
            }
        }
    }

    /// A map, if it has what it looks up.
    fn add_if_map<'a>(
        &mut self,
        known: &Known<'_, '_, 'a>,
        said: &Value<'a>,
    ) -> Result<(), AllocError>
        ensures { OnOk result (self.new ≡ listed.with_map_effect (known_of known.now) self.old
            (get (codes "data") (view said.now))) }
    {
        match said.get("data") {
            Some(found) => self.add_map(known, found),
            None => {
                self.stops = true;
                Ok(())
            }
        }
    }

    /// A statement that isn't quiet, by its name and what it says.
    fn add_acting<'a>(
        &mut self,
        known: &Known<'_, '_, 'a>,
        name: &str,
        said: &Value<'a>,
    ) -> Result<(), AllocError>
        ensures { OnOk result (self.new
            ≡ listed.with_acting_effect (known_of known.now) name.now (view said.now) self.old) }
    {
        match name {
            "xt" => {
                if !is_quiet_part(said) {
                    self.stops = true;
                }
                Ok(())
            }
            "vmap" => self.add_if_map(known, said),
            _ => self.add_verdict(known, name, said),
        }
    }

    /// A statement by its name and what it says.
    fn add_named<'a>(
        &mut self,
        known: &Known<'_, '_, 'a>,
        name: &str,
        said: &Value<'a>,
    ) -> Result<(), AllocError>
        ensures { OnOk result (self.new
            ≡ listed.with_named_effect (known_of known.now) name.now (view said.now) self.old) }
    {
        if is_quiet(name) {
            return Ok(());
        }
        self.add_acting(known, name, said)
    }

    /// A statement, to which packets of the family come or not.
    fn add_statement<'a>(
        &mut self,
        known: &Known<'_, '_, 'a>,
        statement: &Value<'a>,
    ) -> Result<(), AllocError>
        ensures { OnOk result (self.new ≡ listed.with_statement_effect (known_of known.now)
            self.old (view statement.now)) }
    {
        if self.over {
            return Ok(());
        }
        if is_missed(known.asked.family, statement) {
            self.over = true;
            return Ok(());
        }
        match only(statement) {
            Some((name, said)) => self.add_named(known, name, said),
            None => {
                self.stops = true;
                Ok(())
            }
        }
    }
}

impl<'k, 's, 'a> Known<'k, 's, 'a> {
    ghost use Rattle.std.specs.Prelude.{◌≡◌, IfOk, map};
    ghost use Rattle.json.specs.Value.{value_view as view};
    ghost use Rattle.nft_reader.specs.Effects.{effects_of};
    ghost use Rattle.nft_reader.specs.Known.{known_of};

    /// What the statements of a rule do.
    pub(crate) fn effects(&self, statements: &[Value<'a>]) -> Result<Effects, AllocError>
        ensures { IfOk result
            (λ effects. effects ≡ effects_of (known_of self.now) (map view statements.now)) }
    {
        let mut effects = Effects {
            over: false,
            stops: false,
            leads: Vec::new(self.alloc),
        };
        for statement in statements {
            effects.add_statement(self, statement)?;
        }
        Ok(effects)
    }
}
