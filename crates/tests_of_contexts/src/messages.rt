//! What each fault of tables and contexts says.

use acl_context::{AddFault, BuildFault, NotBuilt};
use flat_table::SoundFault;
use rule_set::RuleFault;
use rule_split::PlanFault;
use std::alloc::Global;
use std::fmt::Display;
use std::process::Abort;
use std::test::Fail;

/// The fault says the text.
fn assert_says<F: Display + Drop>(
    rt: &impl Abort,
    alloc: Global,
    fault: F,
    text: &str,
) -> Result<(), Fail> {
    let said = format!(in alloc; "{fault}")?;
    assert!(rt; said.as_str() == text);
    Ok(())
}

#[test]
fn a_table_says_what_is_unsound(rt: HostRuntime) -> Result<(), Fail> {
    let alloc = rt.alloc();
    assert_says(
        &rt,
        alloc,
        SoundFault::Shape,
        "the parts don't fit together",
    )?;
    let root = "root 3 doesn't lead into the first level of its trie";
    assert_says(&rt, alloc, SoundFault::Root(3), root)?;
    let word = "word 70 leads to no row and to no node of the next level";
    assert_says(&rt, alloc, SoundFault::Word(70), word)
}

#[test]
fn words_come_before_the_budget(rt: HostRuntime) -> Result<(), Fail> {
    let alloc = rt.alloc();
    let (words, budget) = (33, 32);
    let text = "the table needs 33 words, and the budget is 32";
    assert_says(&rt, alloc, PlanFault::TooLarge { words, budget }, text)?;
    assert_says(&rt, alloc, BuildFault::TooLarge { words, budget }, text)?;
    assert_says(&rt, alloc, PlanFault::OutOfMemory, "out of memory")?;
    assert_says(&rt, alloc, BuildFault::OutOfMemory, "out of memory")
}

#[test]
fn a_refusal_says_which_rule_and_why(rt: HostRuntime) -> Result<(), Fail> {
    let alloc = rt.alloc();
    let full = "the context may not hold so many rules";
    assert_says(&rt, alloc, AddFault::Full, full)?;
    let refused = AddFault::RuleRefused(2, RuleFault::NoCategory);
    assert_says(&rt, alloc, refused, "rule 2: the rule has no category")?;
    assert_says(&rt, alloc, AddFault::OutOfMemory, "out of memory")?;
    assert_says(&rt, alloc, NotBuilt, "no table was built")
}
