//! bytes of iptables-save → the chains of its table `filter`, or the first faulty line
//!
//! It reads what iptables-save and ip6tables-save print. A rule is read option by option: a name,
//! and the words that belong to it. Whatever isn't known here is refused, so that no word of a list
//! that is accepted is passed over.
//!
//! | module | what it holds |
//! |---|---|
//! | `tables` | names in tables: protocols, states, matches and targets with their options |
//! | `values` | protocols, states, ports and counters, as a word spells them |
//! | `options` | the words that name options, matches and verdicts |
//! | `quotes`, `words` | the words of a line, and those between quotes |
//! | `setting` | where a rule is read |
//! | `reading` | a rule, option by option |
//! | `option_values` | the values of options, which a rule takes up |
//! | `head` | the beginning of a rule's line |
//! | `answers` | what rules answer and do |
//! | `chain` | a chain: its name, its policy and its rules |
//! | `places`, `named_chains` | chains, found by their names |
//! | `declaration` | lines that declare chains |
//! | `saved_tables` | the tables of a save, and the way of packets through them |
//! | `table` | a list, line by line, and its chains |
//! | `reached` | the lines that packets of a chain may come to |
//! | `fault` | the kinds of faults, and the line of the first one |
//! | `laws` | a read rule's words are whole options; lines that aren't reached have no part |
//!
//! Source: the manual pages iptables(8), iptables-extensions(8), iptables-save(8) and
//! iptables-restore(8).
#![tactic(auto)]

mod answers;
mod chain;
mod declaration;
mod fault;
mod head;
pub mod laws;
mod named_chains;
mod option_values;
mod options;
mod places;
mod quotes;
mod reached;
mod reading;
mod saved_tables;
mod setting;
mod table;
mod tables;
mod values;
mod words;

pub use answers::{Answers, Asked};
pub use chain::SavedChain;
pub use fault::{IptablesFault, LineFault, LineKind};
pub use saved_tables::has_other_tables;
pub use table::{MAX_LIST, chain_place, chains_alone, read_chains};
