//! The first state and the least byte that lead to each state and each row.

ghost use Rattle.std.specs.Prelude.{◌≡◌, ◌<◌, ◌≤◌, ◌^◌, [], length, map, slice_index_or, All};
ghost use Rattle.std.specs.Prelude.{OnOk, IfOk};
ghost use Rattle.acl_audit.specs.Links.{is_next, linked_with, runs_linked, links_of};

use std::alloc::{AllocError, Global};
use std::marker::Model;
use trie_merge::{Levels, Run, Succ};

/// What leads to a state or a row first.
#[derive(Clone, Copy)]
pub(crate) struct Link {
    /// The number of the state at the kept place before.
    pub(crate) before: u32,
    /// The byte at that place.
    pub(crate) byte: u8,
}

/// Whether the number that comes next is that of the state or row.
fn is_next(count: usize, to: Succ) -> bool
    ensures { result ≡ is_next count to }
{
    match to {
        Succ::Dead => false,
        Succ::State(number) => number as usize == count,
        Succ::Row(number) => number as usize == count,
    }
}

/// Puts the link after the others, where what it leads to has none yet.
fn push_link(links: &mut Vec<Link>, link: Link, to: Succ) -> Result<(), AllocError>
    ensures { OnOk result (links.new.items ≡ linked_with links.old.items link to) }
{
    if is_next(links.len(), to) {
        links.push(link)?;
    }
    Ok(())
}

/// Puts the links of what a state leads to first after the others.
fn link_runs(links: &mut Vec<Link>, before: u32, runs: &[Run]) -> Result<(), AllocError>
    ensures { OnOk result (links.new.items ≡ runs_linked links.old.items before 0 runs.now) }
{
    let mut byte = 0u8;
    for run in runs {
        push_link(links, Link { before, byte }, run.to)?;
        byte = run.last.wrapping_add(1);
    }
    Ok(())
}

/// The links of all that the states of one kept place lead to: at the last place of the rows, and
/// else of the states of the next kept place. Contracts see their list.
#[derive(Drop)]
pub(crate) struct Links {
    links: Vec<Link>,
}

impl Model for Links {
    ghost use Rattle.std.specs.Prelude.{List};
    ghost use Rattle.acl_audit.specs.declared.links.Link.{Link};

    ghost Value = { List Link };

    ghost view = { λ l. l.links.items };
}

impl Links {
    ghost use Rattle.std.specs.Prelude.{◌≡◌, ◌<◌, ◌≤◌, ◌^◌, [], length, slice_index_or, IfOk};
    ghost use Rattle.acl_audit.specs.Links.{links_of, no_link};

    /// The links of what the states at the kept place of that number lead to.
    #[tactic(auto, unfolding(crate::specs::Links::links_of))]
    fn new(alloc: Global, levels: &Levels, depth: usize) -> Result<Self, AllocError>
        requires depth { depth < length levels.now.levels }
        requires few { length (slice_index_or levels.now.levels depth []) ≤ 2 ^ 32 }
        ensures { IfOk result
            (λ links. links ≡ links_of (slice_index_or levels.now.levels depth [])) }
    {
        let mut links = Vec::new(alloc);
        for state in 0..levels.states(depth) {
            link_runs(&mut links, state as u32, levels.runs(depth, state))?;
        }
        Ok(Links { links })
    }

    /// The link to the state or row of that number.
    pub(crate) fn at(&self, number: usize) -> Link
        requires { number < length self.now }
        ensures { result ≡ slice_index_or self.now number no_link }
    {
        self.links[number]
    }
}

/// The links of all kept places.
pub(crate) fn links_of(alloc: Global, levels: &Levels) -> Result<Vec<Links>, AllocError>
    requires { All (λ states. length states ≤ 2 ^ 32) levels.now.levels }
    ensures { IfOk result (λ links. links.items ≡ map links_of levels.now.levels) }
{
    let mut all = Vec::with_capacity(alloc, levels.depths())?;
    for depth in 0..levels.depths() {
        let links = Links::new(alloc, levels, depth)?;
        all.push(links)?;
    }
    Ok(all)
}
