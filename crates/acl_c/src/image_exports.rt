//! The calls of `aclc.h` that save and load tables.

ghost use Rattle.std.specs.Prelude.{◌≡◌, ◌⊎◌, Some, None, IsSome};
ghost use Rattle.acl_c.specs.Codes.{empty_handle, taken_handle};
ghost use Rattle.acl_c.specs.Shared.{SharedView};
ghost use Rattle.acl_c.specs.Images.{Saves, Loads};

use crate::codes::{EMPTY, OK, TAKEN};
use crate::images::{load_pair, save_pair};
use crate::table_handle::TableHandle;
use std::alloc::Global;

/// Writes the image of two tables.
#[unsafe(no_mangle)]
pub extern "C" fn aclc_proved_save(
    alloc: Global,
    ip4: &mut TableHandle,
    ip6: &mut TableHandle,
    image: &mut [u8],
    image_len: &mut usize,
) -> u32
    ensures empty { (ip4.old.slot.inside ≡ None) ⊎ (ip6.old.slot.inside ≡ None) →
        (result ≡ empty_handle) × (ip4.new.slot.inside ≡ ip4.old.slot.inside)
        × (ip6.new.slot.inside ≡ ip6.old.slot.inside) × (image.new ≡ image.old)
        × (image_len.new ≡ image_len.old) }
    ensures held { (first second : SharedView) → ip4.old.slot.inside ≡ Some first →
        ip6.old.slot.inside ≡ Some second → (ip4.new.slot.inside ≡ Some first)
        × (ip6.new.slot.inside ≡ Some second)
        × Saves first.table second.table image.old image.new image_len.old image_len.new result }
{
    if !ip4.is_held() || !ip6.is_held() {
        return EMPTY;
    }
    let first = ip4.take(alloc);
    let second = ip6.take(alloc);
    let code = save_pair(alloc, first.table(), second.table(), image, image_len);
    ip4.put(first);
    ip6.put(second);
    code
}

/// Fills two handles with the tables of an image.
#[unsafe(no_mangle)]
pub extern "C" fn aclc_proved_load(
    alloc: Global,
    ip4: &mut TableHandle,
    ip6: &mut TableHandle,
    image: &[u8],
    place: &mut u64,
) -> u32
    ensures taken { IsSome ip4.old.slot.inside ⊎ IsSome ip6.old.slot.inside →
        (result ≡ taken_handle) × (ip4.new.slot.inside ≡ ip4.old.slot.inside)
        × (ip6.new.slot.inside ≡ ip6.old.slot.inside) × (place.new ≡ place.old) }
    ensures empty { ip4.old.slot.inside ≡ None → ip6.old.slot.inside ≡ None →
        Loads image.now ip4.new.slot.inside ip6.new.slot.inside place.old place.new result }
{
    if ip4.is_held() || ip6.is_held() {
        return TAKEN;
    }
    match load_pair(alloc, image, place) {
        Ok(pair) => {
            ip4.put(pair.ip4);
            ip6.put(pair.ip6);
            OK
        }
        Err(code) => code,
    }
}
