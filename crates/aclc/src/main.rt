//! the words of the system → an exit code
//!
//! It runs [`acl_tool::Aclc`] on the words, files and streams of the system.
#![tactic(auto)]

ghost use Rattle.std.specs.Prelude.{◌≡◌, ◌<◌};

use acl_outside::system_words;
use acl_tool::Aclc;
use program_edge::run_words;
use std::marker::Brand;
use std::process::ExitCode;
use std::sync::ledger::{Blank, Ledger};

fn main(rt: HostRuntime) -> ExitCode {
    run_counted::<Brand>(Blank::new(1), &rt)
}

/// The program with a counter that stands at 0.
fn run_counted<L: Ledger>(blank: Blank, rt: &HostRuntime) -> ExitCode
    requires name { blank.name ≡ L.name }
    requires parts { blank.parts ≡ L.parts }
    requires some { 0 < blank.parts }
{
    let mut aclc = Aclc::<L>::new(blank);
    run_words(&mut aclc, rt, system_words(rt))
}
