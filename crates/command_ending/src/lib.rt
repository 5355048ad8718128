//! a command as a plan, and what was heard of its files → how it ends, and what that promises
//!
//! A command is a *plan*, defined in `specs/Plan.antt`: it gives a value, stops with a status, or
//! asks for a file and goes on with its bytes. `specs/Follow.antt` says how far it was followed by
//! what was heard, and `specs/StepEffects.antt` what a command then promises of the outside.
//!
//! | module | what it says or reads |
//! |---|---|
//! | `status` | how a command ended |
//! | `message` | the line that tells it |
//! | `input` | the bytes of a file that a command reads |
//! | `output` | the file that a command makes |
#![tactic(auto)]

mod input;
mod message;
mod output;
mod status;

pub use input::read_file;
pub use message::{message_line, usage_kind};
pub use output::make_file;
pub use status::Status;
