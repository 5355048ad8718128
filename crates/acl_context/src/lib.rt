//! rules, a budget and keys → a table of the rules, and the verdicts that it gives of the keys
//!
//! A context holds rules of one layout and the table that its last build made of them. Keys are
//! classified by that table alone, so rules that are added or removed change no verdict before the
//! next build. A call that is refused changes nothing: after a build that is refused the earlier
//! table is still in use.
//!
//! ```text
//!     rules ── add ──► rule set ── build: split, merge, fill ──► table ── classify ──► verdicts
//! ```
//!
//! - `add`: rules that are added, all or none
//! - `build`: the table of a rule set under a budget of words
//! - `context`: [`AclContext`]
//!
//! After the DPDK Programmer's Guide, "Packet Classification and Access Control", and its
//! `rte_acl_ctx`.
#![tactic(auto)]

mod add;
mod build;
mod context;

pub use add::AddFault;
pub use build::BuildFault;
pub use context::{AclContext, NotBuilt};
pub use flat_table::Walk;
pub use flow_core::Scratch;
