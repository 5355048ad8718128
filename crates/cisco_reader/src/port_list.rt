//! Spans of ports, as they are compared.

use crate::fault::LineKind;
use crate::names::MAX_PORT;
use list_chains::Span;
use std::marker::Model;

/// How many ports may stand after `eq` and `neq`.
pub(crate) const MAX_PORTS: usize = 10;

/// Some spans of ports. Contracts see the list.
#[derive(Drop)]
pub(crate) struct Ports {
    spans: [Span; MAX_PORTS],
    count: usize,
}

impl Model for Ports {
    ghost use Rattle.std.specs.Prelude.{◌≤◌, List, take};
    ghost use Rattle.list_chains.specs.declared.span.Span.{Span};
    ghost use Rattle.cisco_reader.specs.PortList.{max_ports};

    ghost Value = { List Span };

    ghost view = { λ ports. take ports.count ports.spans };

    ghost invariant = { λ ports. ports.count ≤ max_ports };
}

impl Ports {
    ghost use Rattle.std.specs.Prelude.{◌≡◌, ◌≤◌, ◌<◌, ℕ, List, [], ◌∷◌, ◌++◌, length};
    ghost use Rattle.cisco_reader.specs.PortList.{ended, max_ports, ports_above, ports_below, ports_between};
    ghost use Rattle.cisco_reader.specs.Read.{Reads};

    /// No ports.
    pub(crate) fn none() -> Ports
        ensures { result ≡ [] }
    {
        Ports {
            spans: [Span { low: 0, high: 0 }; MAX_PORTS],
            count: 0,
        }
    }

    /// Ports from one to another.
    pub(crate) fn between(low: u64, high: u64) -> Ports
        ensures { result ≡ ports_between low high }
    {
        let mut ports = Ports::none();
        ports.push(Span { low, high });
        ports
    }

    /// The ports above one.
    pub(crate) fn above(port: u64) -> Ports
        requires { port ≤ 65535 }
        ensures { result ≡ ports_above port }
    {
        if port == MAX_PORT {
            return Ports::none();
        }
        Ports::between(port + 1, MAX_PORT)
    }

    /// The ports below one.
    pub(crate) fn below(port: u64) -> Ports
        ensures { result ≡ ports_below port }
    {
        if port == 0 {
            return Ports::none();
        }
        Ports::between(0, port - 1)
    }

    /// The spans, in the order of the words.
    pub(crate) fn spans(&self) -> &[Span]
        ensures { result.now ≡ self.now }
    {
        &self.spans[..self.count]
    }

    /// Puts a span after the others.
    pub(crate) fn push(&mut self, span: Span)
        requires { length self.old < max_ports }
        ensures { self.new ≡ self.old ++ span ∷ [] }
    {
        self.spans[self.count] = span;
        self.count += 1;
    }

    /// The ports, if there are any. The words after them stay.
    pub(crate) fn ended(self) -> Result<Ports, LineKind>
        ensures { (words : List (List ℕ)) → Reads (ended self words) result words }
    {
        if self.spans().is_empty() {
            return Err(LineKind::BadPort);
        }
        Ok(self)
    }
}
