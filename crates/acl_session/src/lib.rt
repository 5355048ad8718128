//! a script of calls over a layout of its own → a line of reply for each of its lines
//!
//! A script defines the fields of a layout, makes a context, adds rules, builds the table and
//! classifies buffers. What a line says is read first, by layouts and rules alone. Then it is done,
//! and its reply is put after the others. The replies are defined by lists of rules alone, without
//! tables.
//!
//! | module | what it holds |
//! |---|---|
//! | `words` | the words of a line, read one after the other |
//! | `verb` | which call a line asks for |
//! | `arguments` | what the line says to each call |
//! | `values` | what a rule says of a field |
//! | `hex` | bytes in hexadecimal digits |
//! | `text` | pieces of a text |
//! | `reply` | the lines of refusals and verdicts |
//! | `collected` | the definitions of fields that were collected |
//! | `context` | calls on the context, and their replies |
//! | `buffer` | the verdicts on a buffer |
//! | `made` | what the lines so far made, and what the next one makes of it |
//! | `script` | a whole script |
#![tactic(auto)]

mod arguments;
mod buffer;
mod collected;
mod context;
mod hex;
mod made;
mod reply;
mod script;
mod text;
mod values;
mod verb;
mod words;

pub use script::session;
