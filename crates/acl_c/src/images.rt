//! Tables that are saved to bytes that C has, and loaded from them.

ghost use Rattle.std.specs.Prelude.{◌≡◌, ℕ, ◌<◌, ◌≤◌, ◌++◌, length, drop, Ok, Err, IfOk, IfErr, true, false};
ghost use Rattle.std.specs.List.{list_all};
ghost use Rattle.table_image.specs.declared.load_fault.ImageFault.{ImageFault};
ghost use Rattle.table_image.specs.Spelling.{PairView, is_row_word};
ghost use Rattle.table_image.specs.ImageReading.{image_of};
ghost use Rattle.table_image.specs.Loading.{pair_of_tables};
ghost use Rattle.acl_c.specs.Codes.{ok, no_memory, no_room};
ghost use Rattle.acl_c.specs.Shared.{without_lanes};
ghost use Rattle.acl_c.specs.Images.{image_code, is_ranked_row, can_be_saved, are_saved, image_bytes, Saves, IsToldFault};

use crate::codes::{NO_IMAGE, NO_MEMORY, NO_ROOM, OK};
use crate::shared::Shared;
use flat_table::Table;
use std::alloc::{AllocError, Global};
use table_image::{ImageKind, LoadFault, load, save};
use table_sizes::{IP4_KEY_LEN, IP6_KEY_LEN, MAX_RULES, ROW_LEN};

/// The code of what a check of an image found.
fn image_code(kind: ImageKind) -> u32
    ensures { result ≡ image_code kind }
{
    match kind {
        ImageKind::Magic => 64,
        ImageKind::Version => 65,
        ImageKind::Family => 66,
        ImageKind::Length => 67,
        ImageKind::TooMany => 68,
        ImageKind::Unsound => 69,
        ImageKind::RowForm => 70,
        ImageKind::Trailing => 71,
        ImageKind::KeptGroups => 72,
    }
}

/// Whether the word of a row is 0, or has the rank of one of so many rules in its high half.
fn is_row_word(rules: u32, word: u64) -> bool
    ensures { result ≡ is_row_word rules word }
{
    word == 0 || (1 <= word >> 32 && word >> 32 <= u64::from(rules))
}

/// Whether all words of a row are so.
#[tactic(auto, unfolding(crate::specs::Images::is_ranked_row))]
fn is_ranked_row(rules: u32, row: &[u64; ROW_LEN]) -> bool
    ensures { result ≡ is_ranked_row rules row.now }
{
    row.iter().all(|word| is_row_word(rules, *word))
}

/// Whether all words of all rows but the first are so.
fn are_ranked(rules: u32, rows: &[[u64; ROW_LEN]]) -> bool
    ensures { result ≡ list_all (is_ranked_row rules) (drop 1 rows.now) }
{
    rows.iter().skip(1).all(|row| is_ranked_row(rules, row))
}

/// Whether an image may have the table as that of keys of so many bytes.
fn can_be_saved(key_len: usize, table: &Table) -> bool
    ensures { result ≡ can_be_saved key_len table.now }
{
    table.key_len() == key_len
        && table.rules() as usize <= MAX_RULES
        && are_ranked(table.rules(), table.rows())
}

/// Whether an image may have the tables.
fn are_saved(ip4: &Table, ip6: &Table) -> bool
    ensures { result ≡ are_saved ip4.now ip6.now }
{
    can_be_saved(IP4_KEY_LEN, ip4) && can_be_saved(IP6_KEY_LEN, ip6)
}

/// Writes the bytes of an image where there is room for them, and tells how many they are.
fn put_image(bytes: &[u8], image: &mut [u8], image_len: &mut usize) -> u32
    ensures short { length image.old < length bytes.now →
        (result ≡ no_room) × (image.new ≡ image.old) }
    ensures fits { length bytes.now ≤ length image.old →
        (result ≡ ok) × (image.new ≡ bytes.now ++ drop (length bytes.now) image.old) }
    ensures len { image_len.new ≡ length bytes.now }
{
    *image_len = bytes.len();
    if image.len() < bytes.len() {
        return NO_ROOM;
    }
    image[..bytes.len()].copy_from_slice(bytes);
    OK
}

/// Writes the image of the tables, or tells why not.
pub(crate) fn save_pair(
    alloc: Global,
    ip4: &Table,
    ip6: &Table,
    image: &mut [u8],
    image_len: &mut usize,
) -> u32
    ensures { Saves ip4.now ip6.now image.old image.new image_len.old image_len.new result }
{
    if !are_saved(ip4, ip6) {
        return NO_IMAGE;
    }
    match save(alloc, ip4, ip6) {
        Ok(bytes) => put_image(&bytes, image, image_len),
        Err(AllocError) => NO_MEMORY,
    }
}

/// Two tables for handles of their own.
#[derive(Drop)]
pub(crate) struct SharedPair {
    pub ip4: Box<Shared, Global>,
    pub ip6: Box<Shared, Global>,
}

impl SharedPair {
    /// The tables, each with room for no keys by lanes.
    fn of(alloc: Global, ip4: Table, ip6: Table) -> Result<SharedPair, AllocError>
        ensures ip4 { IfOk result (λ pair. pair.ip4.value ≡ without_lanes ip4) }
        ensures ip6 { IfOk result (λ pair. pair.ip6.value ≡ without_lanes ip6) }
    {
        Ok(SharedPair {
            ip4: Shared::of(alloc, ip4)?,
            ip6: Shared::of(alloc, ip6)?,
        })
    }
}

/// The tables of an image, or the code of why there are none. `place` is written where the bytes
/// are no image, and else stays.
pub(crate) fn load_pair(alloc: Global, image: &[u8], place: &mut u64) -> Result<SharedPair, u32>
    ensures ip4 { IfOk result
        (λ pair. pair.ip4.value ≡ without_lanes pair.ip4.value.table) }
    ensures ip6 { IfOk result
        (λ pair. pair.ip6.value ≡ without_lanes pair.ip6.value.table) }
    ensures pair { IfOk result (λ pair. image_of image.now
        ≡ Ok (pair_of_tables pair.ip4.value.table pair.ip6.value.table)) }
    ensures placed { IfOk result (λ _. place.new ≡ place.old) }
    ensures fault { (fault : ImageFault) → image_of image.now ≡ Err fault →
        IfErr result (λ code. IsToldFault fault place.old place.new code) }
    ensures memory { (pair : PairView) → image_of image.now ≡ Ok pair →
        IfErr result (λ code. (code ≡ no_memory) × (place.new ≡ place.old)) }
{
    let pair = match load(alloc, image) {
        Ok(pair) => pair,
        Err(LoadFault::Image(fault)) => {
            *place = fault.place;
            return Err(image_code(fault.kind));
        }
        Err(LoadFault::OutOfMemory) => return Err(NO_MEMORY),
    };
    match SharedPair::of(alloc, pair.ip4, pair.ip6) {
        Ok(pair) => Ok(pair),
        Err(AllocError) => Err(NO_MEMORY),
    }
}
