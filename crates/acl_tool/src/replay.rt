//! `replay`: the report of a capture, by the tables of an image.

ghost use Rattle.std.specs.Prelude.{◌≡◌, ◌≢◌, ◌⊎◌, false, Ok, Err, IfOk, IfErr};
ghost use Rattle.table_sizes.specs.Groups.{ip4_key_len, ip6_key_len};
ghost use Rattle.command_words.specs.Command.{Replay};
ghost use Rattle.command_words.specs.CommandLine.{options_of};
ghost use Rattle.command_ending.specs.Endings.{is_reported, is_usage};
ghost use Rattle.command_ending.specs.StepEffects.{Takes, outside};
ghost use Rattle.acl_tool.specs.ReplayPlan.{tables_in, tables_of_bytes};
ghost use Rattle.acl_tool.specs.ReplayLoaded.{tables_of};
ghost use Rattle.acl_tool.specs.CommandEffects.{Answers};

use acl_outside::{Desk, Sink};
use capture_report::{PrintOptions, print_packets};
use command_ending::{Status, read_file};
use command_words::Options;
use flat_table::Steps;
use std::alloc::Global;
use std::sync::ledger::Ledger;
use table_image::{LoadFault, TablePair, load};

/// How many bytes of an image are read: one more than the longest image has. What comes after so
/// many changes no answer.
const IMAGE_CAP: usize = 1_073_743_401;

/// Prints the report of a capture by the tables of an image.
pub fn replay<D: Desk, O: Sink, L: Ledger>(
    alloc: Global,
    image: &str,
    capture: &str,
    options: &Options,
    desk: &mut D,
    out: &mut O,
    steps: &mut Steps<L>,
) -> Status
    ensures { Answers (Ok (Replay image.now capture.now (options_of options.now)))
        (outside (D.view desk.old) (O.view out.old) steps.old)
        (outside (D.view desk.new) (O.view out.new) steps.new) result }
{
    let pair = match read_image(alloc, image, desk) {
        Ok(pair) => pair,
        Err(status) => return status,
    };
    let printed = PrintOptions {
        cats: options.categories,
        walk: options.walk,
        stats: options.stats,
        marks: options.marks,
    };
    print_packets(
        alloc, &pair.ip4, &pair.ip6, capture, &printed, desk, out, steps,
    )
}

/// The tables of the named image. It takes the memory of the file, and of the tables.
///
/// The file is read as far as one byte more than an image may have. A file that isn't there or
/// can't be read is a read fault.
fn read_image<D: Desk>(alloc: Global, name: &str, desk: &mut D) -> Result<TablePair, Status>
    ensures taken { Takes (tables_in name.now) tables_of (D.view desk.old) (D.view desk.new)
        result }
    ensures ip4 { IfOk result (λ pair. pair.ip4.key_len ≡ ip4_key_len) }
    ensures ip6 { IfOk result (λ pair. pair.ip6.key_len ≡ ip6_key_len) }
{
    match read_file(alloc, name, IMAGE_CAP, desk) {
        Ok(bytes) => load_image(alloc, &bytes),
        Err(status) => Err(status),
    }
}

/// The tables of an image, or the status of its fault.
fn load_image(alloc: Global, bytes: &[u8]) -> Result<TablePair, Status>
    ensures tables { IfOk result (λ pair. tables_of_bytes bytes.now ≡ Ok (tables_of pair)) }
    ensures fault { IfErr result
        (λ status. (tables_of_bytes bytes.now ≡ Err status) ⊎ (status ≡ Status.OutOfMemory)) }
    ensures unread { IfErr result (λ status. status ≢ Status.ReadFault) }
    ensures unreported { IfErr result (λ status. is_reported status ≡ false) }
    ensures lawful { IfErr result (λ status. is_usage status ≡ false) }
    ensures ip4 { IfOk result (λ pair. pair.ip4.key_len ≡ ip4_key_len) }
    ensures ip6 { IfOk result (λ pair. pair.ip6.key_len ≡ ip6_key_len) }
{
    match load(alloc, bytes) {
        Ok(pair) => Ok(pair),
        Err(LoadFault::Image(fault)) => Err(Status::ImageRefused(fault)),
        Err(LoadFault::OutOfMemory) => Err(Status::OutOfMemory),
    }
}
