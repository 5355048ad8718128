//! The places of a key that merged states tell apart.

ghost use Rattle.std.specs.Prelude.{◌≡◌, ◌<◌, ◌≤◌, IfOk};
ghost use Rattle.table_sizes.specs.Groups.{kept_places, max_key_len};

use std::alloc::{AllocError, Global};
use table_sizes::is_kept;

/// The places of a key of so many bytes that are kept, ascending.
pub(crate) fn kept_places(
    alloc: Global,
    kept: u128,
    key_len: usize,
) -> Result<Vec<usize>, AllocError>
    requires { key_len ≤ max_key_len }
    ensures { IfOk result (λ places. places.items ≡ kept_places key_len kept) }
{
    let mut places = Vec::new(alloc);
    for place in 0..key_len {
        if is_kept(kept, place) {
            places.push(place)?;
        }
    }
    Ok(places)
}
