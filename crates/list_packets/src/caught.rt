//! The boxes of packets that a rule wants, and those that it leaves out.

ghost use Rattle.std.specs.Prelude.{◌≡◌, ◌++◌, map, IfOk, OnOk};
ghost use Rattle.std.specs.List.{flat_map};
ghost use Rattle.list_packets.specs.Packets.{meet, meets};

use crate::packets::{Packets, all_packets, meet};
use field_defs::Family;
use std::alloc::{AllocError, Global};
use std::marker::Model;

/// The boxes of packets that a rule wants, and of those that it leaves out. Contracts see a record
/// of both lists.
#[derive(Drop)]
pub struct Caught {
    kept: Vec<Packets>,
    left: Vec<Packets>,
}

impl Model for Caught {
    ghost use Rattle.list_packets.specs.Packets.{CaughtBoxes};

    ghost Value = { CaughtBoxes };

    ghost view = { λ caught. record { kept = caught.kept.items; left = caught.left.items } };
}

impl Caught {
    ghost use Rattle.std.specs.Prelude.{◌≡◌, ◌∷◌, [], IfOk, OnOk};
    ghost use Rattle.list_packets.specs.Packets.{all_caught, never, with_boxes};

    /// All packets of the family. It takes the memory of a box.
    pub fn all(alloc: Global, family: Family) -> Result<Caught, AllocError>
        ensures { IfOk result (λ caught. caught ≡ all_caught family) }
    {
        let mut kept = Vec::new(alloc);
        kept.push(all_packets(family))?;
        let left = Vec::new(alloc);
        Ok(Caught { kept, left })
    }

    /// The boxes that are wanted.
    pub fn kept(&self) -> &[Packets]
        ensures { result.now ≡ self.now.kept }
    {
        self.kept.as_slice()
    }

    /// Those that are left out.
    pub(crate) fn left(&self) -> &[Packets]
        ensures { result.now ≡ self.now.left }
    {
        self.left.as_slice()
    }

    /// The boxes of a comparison: packets lie in one of them, or after a negation in none. It takes
    /// the memory of what they have in common with those that are wanted.
    pub fn take(
        &mut self,
        alloc: Global,
        negated: bool,
        boxes: &[Packets],
    ) -> Result<(), AllocError>
        ensures { OnOk result (self.new ≡ with_boxes negated boxes.now self.old) }
    {
        if negated {
            self.left.extend_from_slice(boxes)?;
            return Ok(());
        }
        self.kept = meets(alloc, &self.kept, boxes)?;
        Ok(())
    }

    /// None of the packets: no box is wanted any more. It takes no memory.
    pub fn clear(&mut self)
        ensures { self.new ≡ never self.old }
    {
        self.kept.clear();
    }
}

/// What the boxes of two lists have in common, each of the first with each of the second.
fn meets(alloc: Global, ones: &[Packets], others: &[Packets]) -> Result<Vec<Packets>, AllocError>
    ensures { IfOk result (λ boxes. boxes.items ≡ meets ones.now others.now) }
{
    let mut boxes = Vec::new(alloc);
    for one in ones {
        put_meets(&mut boxes, *one, others)?;
    }
    Ok(boxes)
}

/// Puts what a box has in common with others.
fn put_meets(into: &mut Vec<Packets>, one: Packets, others: &[Packets]) -> Result<(), AllocError>
    ensures { OnOk result (into.new.items ≡ into.old.items ++ map (meet one) others.now) }
{
    for other in others {
        into.push(meet(one, *other))?;
    }
    Ok(())
}
