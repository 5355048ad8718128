//! no words, and then the words of four commands one after the other → what each prints, and its
//! code after it
#![tactic(auto)]

ghost use Rattle.std.specs.Prelude.{◌≡◌, ◌<◌};

use acl_outside::system_words;
use acl_tool::Aclc;
use program_edge::run_words;
use std::alloc::{AllocError, Global};
use std::io;
use std::marker::Brand;
use std::process::ExitCode;
use std::sync::ledger::{Blank, Ledger};

/// The words of the commands, of which the first is the program's name.
const COMMANDS: [&[&str]; 4] = [
    &["aclc", "classify", "guide.rules", "ports.pcap", "stats=on"],
    &[
        "aclc",
        "classify",
        "large.rules",
        "large.pcap",
        "categories=12",
        "marks=on",
    ],
    &["aclc", "bench", "42", "256", "1000"],
    &["aclc", "session", "own_layout.script"],
];

/// The words as the system gives them.
fn words_of(alloc: Global, all: &[&str]) -> Result<Vec<String>, AllocError> {
    let mut words = Vec::new(alloc);
    for word in all {
        words.push(String::from_str(alloc, word)?)?;
    }
    Ok(words)
}

fn main(rt: HostRuntime) -> io::Result<ExitCode> {
    run_counted::<Brand>(Blank::new(1), &rt)
}

/// All commands by one program, whose counter stands at 0 before the first.
fn run_counted<L: Ledger>(blank: Blank, rt: &HostRuntime) -> io::Result<ExitCode>
    requires name { blank.name ≡ L.name }
    requires parts { blank.parts ≡ L.parts }
    requires some { 0 < blank.parts }
{
    let mut aclc = Aclc::<L>::new(blank);
    let first = run_words(&mut aclc, rt, system_words(rt));
    println!(rt; "{first:?}")?;
    for command in COMMANDS {
        let code = run_words(&mut aclc, rt, words_of(rt.alloc(), command).ok());
        println!(rt; "{code:?}")?;
    }
    Ok(first)
}
