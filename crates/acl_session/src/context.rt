//! Calls on the context, and their replies.

ghost use Rattle.std.specs.Prelude.{◌≡◌, ◌<◌, ◌≤◌, OnOk};
ghost use Rattle.table_sizes.specs.Sizes.{max_words};
ghost use Rattle.acl_session.specs.Session.{added, built, cleared, without_rules};
ghost use Rattle.acl_session.specs.Mirrors.{AnswersHeld};

use crate::reply::{push_rule_fault, push_too_large};
use crate::text::push_piece;
use acl_context::{AclContext, AddFault, BuildFault};
use rule_set::StoredRule;
use std::alloc::AllocError;

/// Adds the rule to the context, and puts the reply after the others.
pub(crate) fn add_rule(
    context: &mut AclContext,
    rule: StoredRule,
    replies: &mut Vec<u8>,
) -> Result<(), AllocError>
    ensures { OnOk result (AnswersHeld (λ held. added held rule)
        context.old context.new replies.old.items replies.new.items) }
{
    match context.add_stored(&[rule]) {
        Ok(()) => push_piece(replies, b"ok\n"),
        Err(AddFault::Full) => push_piece(replies, b"refused full\n"),
        Err(AddFault::RuleRefused(_, fault)) => push_rule_fault(replies, fault),
        Err(AddFault::OutOfMemory) => Err(AllocError),
    }
}

/// Builds the table of the context, and puts the reply after the others.
pub(crate) fn build(
    context: &mut AclContext,
    budget: u64,
    replies: &mut Vec<u8>,
) -> Result<(), AllocError>
    requires some { 0 < budget }
    requires budget { budget ≤ max_words }
    ensures { OnOk result (AnswersHeld (λ held. built held budget)
        context.old context.new replies.old.items replies.new.items) }
{
    match context.build(budget) {
        Ok(()) => push_piece(replies, b"ok\n"),
        Err(BuildFault::TooLarge { words, budget }) => push_too_large(replies, words, budget),
        Err(BuildFault::OutOfMemory) => Err(AllocError),
    }
}

/// Removes the rules of the context, and puts the reply after the others.
pub(crate) fn reset_rules(context: &mut AclContext, replies: &mut Vec<u8>) -> Result<(), AllocError>
    ensures { OnOk result (AnswersHeld without_rules
        context.old context.new replies.old.items replies.new.items) }
{
    context.reset_rules();
    push_piece(replies, b"ok\n")
}

/// Removes the rules and the table of the context, and puts the reply after the others.
pub(crate) fn reset(context: &mut AclContext, replies: &mut Vec<u8>) -> Result<(), AllocError>
    ensures { OnOk result (AnswersHeld cleared
        context.old context.new replies.old.items replies.new.items) }
{
    context.reset();
    push_piece(replies, b"ok\n")
}
