//! what audits and comparisons of rule sets say → the lines of `audit` and of `compare`
//!
//! A line of `audit` says that a rule wins in a category, and the least key at which it does, or
//! that it never wins. One of `compare` says that two lists decide alike, or where they don't. The
//! texts are defined in `specs/`, by least keys, verdicts and rules alone.
//!
//! | module | what it writes |
//! |---|---|
//! | `text` | pieces of a text: words, numbers and keys |
//! | `rule` | the lines of a rule |
//! | `audit` | the lines of all rules of both families, and the last one |
//! | `compare` | the line of a family that was compared |
#![tactic(auto)]

mod audit;
mod compare;
mod rule;
mod text;

pub use audit::audit_text;
pub use compare::push_difference;
