//! Lists that lie one after the other in one.

ghost use Rattle.std.specs.Prelude.{◌≡◌, ◌<◌, ◌∷◌, [], length, slice_index_or};
ghost use Rattle.state_parts.specs.Slices.{pieces_of, IsPieces};

/// Where a slice begins: where the one before ends.
fn start_of(ends: &[usize], k: usize) -> usize
    requires { k < length ends.now }
    ensures { result ≡ slice_index_or (0 ∷ ends.now) k 0 }
{
    if k == 0 { 0 } else { ends[k - 1] }
}

/// One of the slices that end at the given places, the first of which begins at 0.
///
/// It takes no memory.
pub fn slice<'a, T>(items: &'a [T], ends: &[usize], k: usize) -> &'a [T]
    requires pieces { IsPieces 0 ends.now (length items.now) }
    requires k { k < length ends.now }
    ensures { result.now ≡ slice_index_or (pieces_of items.now 0 ends.now) k [] }
{
    let (until, _) = items.split_at(ends[k]);
    let (_, slice) = until.split_at(start_of(ends, k));
    slice
}
