//! Words are run over files, and what is printed is handed over.

ghost use Rattle.std.specs.Prelude.{◌≡◌, ℕ, ◌<◌, [], length, map, min, IfOk, IsTrue, string_bytes};
ghost use Rattle.acl_outside.specs.MemFile.{files_of};
ghost use Rattle.acl_outside.specs.Memory.{distinct_names, shown_desk};
ghost use Rattle.command_ending.specs.StepEffects.{outside};
ghost use Rattle.acl_tool.specs.CommandEffects.{Runs};
ghost use Rattle.aclc_page.specs.Grown.{shown_grown};
ghost use Rattle.aclc_page.specs.Ran.{MakesNothing, Ran, Handed, IsHanded, room};

use crate::desk::PageDesk;
use crate::exports::Lens;
use crate::growing::GrowingSink;
use acl_outside::MemFile;
use acl_tool::{Status, run};
use flat_table::Steps;
use std::alloc::{AllocError, Global};
use std::marker::Brand;
use std::sync::ledger::{Blank, Ledger};

/// The code where there is no memory, which is that of `aclc`.
pub(crate) const NO_MEMORY: u32 = 9;

/// What a command printed, and its code.
#[derive(Drop)]
pub(crate) struct Printed {
    pub(crate) code: u8,
    pub(crate) out: GrowingSink,
    pub(crate) err: GrowingSink,
}

/// Runs the words with a counter that nobody sees.
fn run_counted<L: Ledger>(
    blank: Blank,
    alloc: Global,
    words: &[String],
    desk: &mut PageDesk,
    out: &mut GrowingSink,
    err: &mut GrowingSink,
) -> Status
    requires name { blank.name ≡ L.name }
    requires parts { blank.parts ≡ L.parts }
    requires some { 0 < blank.parts }
    ensures { (steps : ℕ) × Runs (map string_bytes words.now)
        (outside (shown_desk desk.old) (shown_grown out.old) 0)
        (outside (shown_desk desk.new) (shown_grown out.new) steps)
        (shown_grown err.old) (shown_grown err.new) result }
{
    let mut steps = Steps::<L>::new(blank);
    run(alloc, words, desk, out, err, &mut steps)
}

/// Runs the words over these files, of which no two have one name. The words make no file.
pub(crate) fn print(
    alloc: Global,
    words: Vec<String>,
    files: Vec<MemFile>,
) -> Result<Printed, AllocError>
    requires distinct { IsTrue (distinct_names (files_of files.items)) }
    requires makes { MakesNothing (map string_bytes words.items) }
    ensures { IfOk result (λ printed. Ran (map string_bytes words.items) (files_of files.items)
        printed.out.text printed.err.text printed.code) }
{
    let mut desk = PageDesk::new(alloc, files)?;
    let (mut out, mut err) = (GrowingSink::new(alloc), GrowingSink::new(alloc));
    let status = run_counted::<Brand>(Blank::new(1), alloc, &words, &mut desk, &mut out, &mut err);
    out.whole()?;
    err.whole()?;
    Ok(Printed {
        code: status.code(),
        out,
        err,
    })
}

/// Copies as many of the bytes as have room to the front of the slice.
fn copy(bytes: &[u8], into: &mut [u8]) -> u64
    ensures { Handed bytes.now into.old into.new result }
{
    let count = bytes.len().min(into.len());
    into[..count].copy_from_slice(&bytes[..count]);
    bytes.len() as u64
}

/// Hands over what a command printed, and says its code.
pub(crate) fn hand_over(
    printed: Result<Printed, AllocError>,
    out: &mut [u8],
    err: &mut [u8],
    lens: &mut Lens,
) -> u32
    ensures { IsHanded printed (room out.old err.old) (room out.new err.new) lens.new result }
{
    *lens = Lens { out: 0, err: 0 };
    match printed {
        Ok(printed) => {
            lens.out = copy(printed.out.bytes(), out);
            lens.err = copy(printed.err.bytes(), err);
            printed.code as u32
        }
        Err(AllocError) => NO_MEMORY,
    }
}
