//! lists and numbers → lemmas on them that mention no word of this project
//!
//! The crate has no code. Each file of `proofs/` holds the lemmas of one topic, and any crate may
//! cite them.
#![tactic(auto)]
