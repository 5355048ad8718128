//! The turning of lists as a program.

use crate::tool::run_lists;
use acl_outside::{Desk, Sink};
use program_edge::Program;
use std::alloc::Global;

/// The program `aclc-lists`.
#[derive(Drop)]
pub struct AclcLists;

impl Program for AclcLists {
    ghost use Rattle.list_tool.specs.RunsAnew.{IsRunOfLists};

    ghost promise = { λ _ _. IsRunOfLists };

    fn run<D: Desk, O: Sink, E: Sink>(
        &mut self,
        alloc: Global,
        words: &[String],
        desk: &mut D,
        out: &mut O,
        err: &mut E,
    ) -> u8 {
        run_lists(alloc, words, desk, out, err).code()
    }
}
