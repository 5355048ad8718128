//! What a context answers to a batch of keys.

ghost use Rattle.std.specs.Prelude.{◌≡◌, ◌<◌};

use acl_context::{AclContext, Scratch, Walk};
use flat_table::Steps;
use rule_set::Categories;
use std::alloc::Global;
use std::marker::Brand;
use std::process::Abort;
use std::sync::ledger::{Blank, Ledger};
use std::test::Fail;

/// What a context says of keys.
#[derive(Drop)]
pub(crate) struct Said {
    /// The verdicts, key by key.
    pub(crate) verdicts: Vec<u32>,
    /// How many transitions the walks took.
    pub(crate) taken: Option<u64>,
}

/// Writes what the context says of the keys in so many categories, and gives how many transitions
/// that took, or None where there is no table or the keys don't fit.
fn answers<L: Ledger>(
    blank: Blank,
    context: &AclContext,
    keys: &[u8],
    count: u32,
    walk: Walk,
    scratch: &mut Scratch,
    out: &mut [u32],
) -> Option<u64>
    requires name { blank.name ≡ L.name }
    requires parts { blank.parts ≡ L.parts }
    requires some { 0 < blank.parts }
{
    let mut steps = Steps::<L>::new(blank);
    let cats = Categories::new(count)?;
    let key_len = context.rules().layout().key_len();
    if key_len == 0 {
        return None;
    }
    let n = keys.len() / key_len;
    if n > scratch.room()
        || n > 65_536
        || keys.len() != n * key_len
        || out.len() != n * cats.count()
    {
        return None;
    }
    context
        .classify(keys, cats, walk, scratch, out, &mut steps)
        .ok()
}

/// What the context says of so many keys in so many categories, by the walk.
pub(crate) fn classified(
    rt: &impl Abort,
    alloc: Global,
    context: &AclContext,
    keys: &[u8],
    n: u32,
    count: u32,
    walk: Walk,
) -> Result<Said, Fail> {
    assert!(rt; n <= 65_536);
    let mut scratch = Scratch::new(alloc, n as usize)?;
    let room = (n as usize).wrapping_mul(count as usize);
    let mut verdicts = vec![in alloc; 9u32; room]?;
    let blank = Blank::new(1);
    let taken = answers::<Brand>(
        blank,
        context,
        keys,
        count,
        walk,
        &mut scratch,
        &mut verdicts,
    );
    Ok(Said { verdicts, taken })
}

/// What the context says of so many keys in so many categories, by either walk.
pub(crate) fn answered(
    rt: &impl Abort,
    alloc: Global,
    context: &AclContext,
    keys: &[u8],
    n: u32,
    count: u32,
) -> Result<Vec<u32>, Fail> {
    let scalar = classified(rt, alloc, context, keys, n, count, Walk::Scalar)?;
    let lanes = classified(rt, alloc, context, keys, n, count, Walk::Lanes)?;
    assert_alike(rt, &scalar, &lanes);
    Ok(scalar.verdicts)
}

/// The two walks said the same.
fn assert_alike(rt: &impl Abort, scalar: &Said, lanes: &Said) {
    assert!(rt; scalar.taken.is_some());
    assert!(rt; scalar.taken == lanes.taken);
    assert!(rt; scalar.verdicts == lanes.verdicts);
}

/// What the context says of the keys by either walk are these verdicts, of so many categories each.
pub(crate) fn assert_answers(
    rt: &impl Abort,
    alloc: Global,
    context: &AclContext,
    keys: &[u8],
    (n, count): (u32, u32),
    expected: &[u32],
) -> Result<(), Fail> {
    let said = answered(rt, alloc, context, keys, n, count)?;
    assert!(rt; said.as_slice() == expected);
    Ok(())
}
