//! Laws of commands, over the definitions alone. They do nothing when they are run, and take no
//! memory.

ghost use Rattle.std.specs.Prelude.{◌<◌, ◌≤◌};
ghost use Rattle.flat_table.specs.declared.walk.Walk.{Walk};
ghost use Rattle.table_sizes.specs.Sizes.{max_words};
ghost use Rattle.acl_tool.specs.BeforeLeft.{ClassifyPutsToFault, PrintingPutsToFault};
ghost use Rattle.acl_tool.specs.BeforeLeft.{ReplayPutsToFault};
ghost use Rattle.acl_tool.specs.Laws.{ReplayAgrees};

use rule_set::Categories;

/// Where the image is that of the tables of an accepted rule file, as `build` makes it under a
/// budget from 1 to 67,108,864 words, `replay` of the image comes to what `classify` of the rule
/// file comes to, whatever the capture and the walk: the same status, the same text and as many
/// transitions.
pub fn replay_agrees(
    rules: &[u8],
    image: &[u8],
    capture: &[u8],
    budget: u64,
    cats: Categories,
    stats: bool,
    marks: bool,
)
    requires some { 0 < budget }
    requires budget { budget ≤ max_words }
    ensures { (walk : Walk) → ReplayAgrees rules.now image.now capture.now (record {
      categories = cats.count;
      walk = walk;
      max_words = budget;
      stats = stats;
      marks = marks;
    }) }
{
    classbench_reader::laws::accepted_rules_are_lawful();
    table_fill::laws::filled_tables_decide();
}

/// Where a desk tells its files, what `classify` and `replay` put before a fault of the outside is
/// said of the bytes of the capture that stand before those that are left to read.
///
/// After a read fault the output has gained exactly the lines of their whole records if the capture
/// is opened, and else nothing; where both files have one name, it may be nothing too. After a
/// write fault the capture is opened, and at most 64 of these records have no line in what was
/// gained.
pub fn lines_are_of_the_bytes_before_left()
    ensures classify { ClassifyPutsToFault }
    ensures replay { ReplayPutsToFault }
    // `print_packets` names no other file.
    ensures printing { PrintingPutsToFault }
{}
