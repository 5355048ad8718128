//! The words of the command line.

ghost use Rattle.std.specs.Prelude.{◌≡◌, IfSome};
ghost use Rattle.std.specs.Vec.Iter.{into_iter_items};

use std::alloc::{Alloc, Global};
use std::env;
use std::env::Env;

/// All words of the system's command line, which begin with the program's name, or `None` where it
/// can't give them: one isn't UTF-8, or there is no memory for them.
pub fn system_words<R: Env + Alloc<A = Global>>(rt: &R) -> Option<Vec<String>> {
    let args = env::args(rt).ok()?;
    all_words(rt.alloc(), args)
}

/// All words of a command line, or `None` where there is no memory for them.
fn all_words(alloc: Global, args: env::Args) -> Option<Vec<String>>
    ensures { IfSome result (λ words. words.items ≡ into_iter_items args) }
{
    args.collect(alloc).ok()
}
