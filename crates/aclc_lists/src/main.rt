//! the words of the system → an exit code
//!
//! It runs [`list_tool::AclcLists`] on the words, files and streams of the system.
#![tactic(auto)]

use acl_outside::system_words;
use list_tool::AclcLists;
use program_edge::run_words;
use std::process::ExitCode;

fn main(rt: HostRuntime) -> ExitCode {
    run_words(&mut AclcLists, &rt, system_words(&rt))
}
