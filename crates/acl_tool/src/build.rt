//! `build`: the tables of a rule file, saved as an image.

ghost use Rattle.std.specs.Prelude.{◌≡◌, ◌<◌, ◌≤◌, ℕ, Ok, IfOk, IfErr};
ghost use Rattle.field_defs.specs.Layout.{ip4_fields, ip6_fields};
ghost use Rattle.table_sizes.specs.Sizes.{max_words};
ghost use Rattle.acl_outside.specs.Sink.{SinkView};
ghost use Rattle.command_words.specs.Command.{Build};
ghost use Rattle.command_ending.specs.StepEffects.{outside};
ghost use Rattle.capture_report.specs.Classifier.{lists_of};
ghost use Rattle.acl_tool.specs.Built.{Refuses};
ghost use Rattle.acl_tool.specs.CommandEffects.{Answers};
ghost use Rattle.acl_tool.specs.BuildSaved.{IsSaved};

use crate::rule_file::{Listing, read_rule_file};
use crate::tables::{build_tables, table_of};
use acl_outside::{Desk, Failed};
use classbench_reader::RuleFile;
use command_ending::{Status, make_file};
use command_words::Budget;
use std::alloc::Global;
use table_image::save;

/// Makes the named image of the tables of the rules of a file, and prints nothing.
///
/// The file is created once its image is whole in memory, and no memory is taken after that.
/// `TooLarge`: the table of a family needs more words than `max_words`. `WriteFault`: the image
/// couldn't be created, and is as before, or it holds a first part of its bytes.
pub fn build<D: Desk>(
    alloc: Global,
    rules: &str,
    image: &str,
    max_words: Budget,
    desk: &mut D,
) -> Status
    ensures { (out : SinkView) (steps : ℕ) →
        Answers (Ok (Build rules.now image.now max_words.words))
        (outside (D.view desk.old) out steps) (outside (D.view desk.new) out steps) result }
{
    let rules = match read_rule_file(alloc, rules, Listing::First, desk) {
        Ok(rules) => rules,
        Err(status) => return status,
    };
    let bytes = match image_of(alloc, rules, max_words.words()) {
        Ok(bytes) => bytes,
        Err(status) => return status,
    };
    match make_file(image, &bytes, desk) {
        Ok(()) => Status::Done,
        Err(Failed) => Status::WriteFault,
    }
}

/// The image of the tables of the rules, of which each may have `budget` words. It takes all the
/// memory that `build` needs besides the rules.
fn image_of(alloc: Global, rules: RuleFile, budget: u64) -> Result<Vec<u8>, Status>
    requires ip4 { rules.ip4.layout ≡ ip4_fields }
    requires ip6 { rules.ip6.layout ≡ ip6_fields }
    requires some { 0 < budget }
    requires budget { budget ≤ max_words }
    ensures saved { IfOk result (λ image. IsSaved budget (lists_of rules) image.items) }
    ensures refused { IfErr result (λ status. Refuses budget (lists_of rules) status) }
{
    let contexts = build_tables(alloc, rules, budget)?;
    let (ip4, ip6) = (table_of(&contexts.ip4), table_of(&contexts.ip6));
    let image = save(alloc, ip4, ip6)?;
    Ok(image)
}
