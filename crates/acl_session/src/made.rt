//! What the lines of a script made so far, and what the next one makes of it.

ghost use Rattle.std.specs.Prelude.{◌≡◌, ◌++◌, OnOk};
ghost use Rattle.text_scan.specs.Parts.{words_of};
ghost use Rattle.acl_session.specs.Command.{command_of, said_to};
ghost use Rattle.acl_session.specs.declared.verb.Verb.TheVariants as verbs;
ghost use Rattle.acl_session.specs.State.{first_state};
ghost use Rattle.acl_session.specs.Replies.{bad_line_text, no_context_text};
ghost use Rattle.acl_session.specs.Session.{answer, step_if};
ghost use Rattle.acl_session.specs.Mirrors.{Answers, Mirrors};

use crate::arguments::{read_budget, read_buffer, read_field, read_limit, read_rule};
use crate::buffer::classify;
use crate::collected::Collected;
use crate::context::{add_rule, build, reset, reset_rules};
use crate::reply::push_layout_fault;
use crate::text::push_piece;
use crate::verb::{Verb, verb_named};
use crate::words::{is_end, take_word};
use acl_context::AclContext;
use std::alloc::{AllocError, Global};

/// The definitions that were collected, and the context, if there is one.
pub(crate) struct Made {
    alloc: Global,
    collected: Collected,
    context: Option<AclContext>,
}

/// It is written out so that letting go is one call wherever a script ends.
impl Drop for Made {
    fn drop(self) {
        let Made {
            alloc: _,
            collected: _,
            context: _,
        } = self;
    }
}

/// Puts the reply to a line that says nothing after the others.
fn push_bad_line(replies: &mut Vec<u8>) -> Result<(), AllocError>
    ensures { OnOk result (replies.new.items ≡ replies.old.items ++ bad_line_text) }
{
    push_piece(replies, b"bad line\n")
}

/// Puts the reply to a call on a context that isn't there after the others.
fn push_no_context(replies: &mut Vec<u8>) -> Result<(), AllocError>
    ensures { OnOk result (replies.new.items ≡ replies.old.items ++ no_context_text) }
{
    push_piece(replies, b"refused no context\n")
}

impl Made {
    /// Nothing.
    pub(crate) fn new(alloc: Global) -> Made
        ensures { Mirrors first_state result }
    {
        Made {
            alloc,
            collected: Collected::new(),
            context: None,
        }
    }

    /// Does what the line asks for, and puts its reply after the others.
    pub(crate) fn answer(&mut self, line: &[u8], replies: &mut Vec<u8>) -> Result<(), AllocError>
        ensures { OnOk result (Answers (λ state. answer state line.now)
            self.old self.new replies.old.items replies.new.items) }
    {
        let Some((name, words)) = take_word(line) else {
            return push_bad_line(replies);
        };
        let Some(verb) = verb_named(name) else {
            return push_bad_line(replies);
        };
        match verb {
            Verb::Field => self.field(words, replies),
            Verb::Context => self.open(words, replies),
            Verb::Rule => self.rule(words, replies),
            Verb::Build => self.build(words, replies),
            Verb::ResetRules => self.reset_rules(words, replies),
            Verb::Reset => self.reset(words, replies),
            Verb::Classify => self.classify(words, replies),
        }
    }

    /// Collects the definition of a field.
    fn field(&mut self, words: &[u8], replies: &mut Vec<u8>) -> Result<(), AllocError>
        ensures { OnOk result
            (Answers (λ state. step_if state (said_to verbs.Field (words_of words.now)))
            self.old self.new replies.old.items replies.new.items) }
    {
        let Some(field) = read_field(words) else {
            return push_bad_line(replies);
        };
        if self.collected.is_full() {
            return push_piece(replies, b"refused too many fields\n");
        }
        self.collected.push(field);
        push_piece(replies, b"ok\n")
    }

    /// Makes a context of the collected definitions, in the place of the one before.
    fn open(&mut self, words: &[u8], replies: &mut Vec<u8>) -> Result<(), AllocError>
        ensures { OnOk result
            (Answers (λ state. step_if state (said_to verbs.Context (words_of words.now)))
            self.old self.new replies.old.items replies.new.items) }
    {
        let Some(limit) = read_limit(words) else {
            return push_bad_line(replies);
        };
        let layout = self.collected.layout();
        self.collected = Collected::new();
        match layout {
            Ok(layout) => {
                self.context = Some(AclContext::create(self.alloc, layout, limit));
                push_piece(replies, b"ok\n")
            }
            Err(fault) => push_layout_fault(replies, fault),
        }
    }

    /// Adds a rule to the context.
    fn rule(&mut self, words: &[u8], replies: &mut Vec<u8>) -> Result<(), AllocError>
        ensures { OnOk result
            (Answers (λ state. step_if state (said_to verbs.Rule (words_of words.now)))
            self.old self.new replies.old.items replies.new.items) }
    {
        let Some(rule) = read_rule(self.alloc, words)? else {
            return push_bad_line(replies);
        };
        match &mut self.context {
            Some(context) => add_rule(context, rule, replies),
            None => push_no_context(replies),
        }
    }

    /// Builds the table of the context.
    fn build(&mut self, words: &[u8], replies: &mut Vec<u8>) -> Result<(), AllocError>
        ensures { OnOk result
            (Answers (λ state. step_if state (said_to verbs.Build (words_of words.now)))
            self.old self.new replies.old.items replies.new.items) }
    {
        let Some(budget) = read_budget(words) else {
            return push_bad_line(replies);
        };
        match &mut self.context {
            Some(context) => build(context, budget, replies),
            None => push_no_context(replies),
        }
    }

    /// Removes the rules of the context.
    fn reset_rules(&mut self, words: &[u8], replies: &mut Vec<u8>) -> Result<(), AllocError>
        ensures { OnOk result
            (Answers (λ state. step_if state (said_to verbs.ResetRules (words_of words.now)))
            self.old self.new replies.old.items replies.new.items) }
    {
        if !is_end(words) {
            return push_bad_line(replies);
        }
        match &mut self.context {
            Some(context) => reset_rules(context, replies),
            None => push_no_context(replies),
        }
    }

    /// Removes the rules and the table of the context.
    fn reset(&mut self, words: &[u8], replies: &mut Vec<u8>) -> Result<(), AllocError>
        ensures { OnOk result
            (Answers (λ state. step_if state (said_to verbs.Reset (words_of words.now)))
            self.old self.new replies.old.items replies.new.items) }
    {
        if !is_end(words) {
            return push_bad_line(replies);
        }
        match &mut self.context {
            Some(context) => reset(context, replies),
            None => push_no_context(replies),
        }
    }

    /// Classifies a buffer by the table of the context.
    fn classify(&self, words: &[u8], replies: &mut Vec<u8>) -> Result<(), AllocError>
        ensures { OnOk result
            (Answers (λ state. step_if state (said_to verbs.Classify (words_of words.now)))
            self.now self.now replies.old.items replies.new.items) }
    {
        let Some((cats, digits)) = read_buffer(words) else {
            return push_bad_line(replies);
        };
        match &self.context {
            Some(context) => classify(self.alloc, context, cats, digits, replies),
            None => push_no_context(replies),
        }
    }
}
