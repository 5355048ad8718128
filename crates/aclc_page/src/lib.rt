//! bytes that a page gives → what a command prints of them, and its code; the classes and keys of a
//! capture's records
//!
//! Each export is called with bytes in the memory of a module for WebAssembly, and stands for one
//! command. It makes the words of the command, runs them by [`acl_tool::run`] over a desk that has
//! the bytes as its files and nothing else, and hands over what was printed.
//!
//! ```text
//!     page ── bytes, options ──► words, PageDesk ──► run ──► GrowingSink ──► as much as has room
//! ```
//!
//! - `desk`: the bytes of the page as files
//! - `growing`: what is printed, in memory that grows
//! - `words`: the words of each command
//! - `printing`: words are run over files, and what is printed is handed over
//! - `commands`: the words and files of each command
//! - `exports`: the calls of commands
//! - `records`: the call for the records of a capture
#![tactic(auto)]

mod commands;
mod desk;
mod exports;
mod growing;
mod printing;
mod records;
mod words;
