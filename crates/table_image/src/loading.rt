//! Any bytes in, the pair of tables of which they are the image out, or their first failing check.

ghost use Rattle.std.specs.Prelude.{◌≡◌, ◌==◌, ◌||◌, ◌+◌, ◌≤◌, ◌⊎◌, length, IfOk, IfErr, Ok};
ghost use Rattle.table_image.specs.declared.version.Version.TheVariants.{One, Two};
ghost use Rattle.table_image.specs.Spelling.{IsImage};
ghost use Rattle.table_image.specs.ImageReading.{version_of, version_read, image_of};
ghost use Rattle.table_image.specs.Loading.{IsFaultOf, pair_of};

use crate::field::{checked, short};
use crate::load_fault::{ImageFault, ImageKind, LoadFault};
use crate::pair::TablePair;
use crate::saving::MAGIC;
use crate::table::read_table;
use crate::version::Version;
use std::alloc::Global;
use table_sizes::{IP4_KEY_LEN, IP6_KEY_LEN};

/// The version of the number.
fn version_of(number: u32) -> Version
    ensures { result ≡ version_of number }
{
    if number == 1 {
        Version::One
    } else {
        Version::Two
    }
}

/// The version of an image, after its magic.
fn read_version(bytes: &[u8]) -> Result<Version, ImageFault>
    ensures version { result ≡ version_read bytes.now }
    ensures inside { IfOk result (λ _. 8 ≤ length bytes.now) }
{
    let magic = short(bytes, 0)?;
    checked(magic, magic == MAGIC, ImageKind::Magic, 0)?;
    let number = short(bytes, 4)?;
    let number = checked(number, number == 1 || number == 2, ImageKind::Version, 4)?;
    Ok(version_of(number))
}

/// The pair of tables of which the bytes are the image, of version 1 or 2, or their first failing
/// check.
///
/// All numbers are in network order. `ACLT` and the version stand first, then the IPv4 table, then
/// the IPv6 table: family, rules, tries and rows, four bytes each; for each trie its kept groups
/// (four bytes, in version 2), the length of each of its levels (four bytes each), and its root
/// (eight); then the words (eight each); then the rows after row 0, sixteen words each. Each field
/// is checked where it stands, and `Image` tells the first check that fails, by the place of its
/// field. It comes exactly where the bytes are the image of no pair, as long as memory lasts.
///
/// Memory is taken for the tables alone, and never for words or rows that aren't there: so bytes
/// that are no image make it take no more than their own length and 8 KiB.
pub fn load(alloc: Global, bytes: &[u8]) -> Result<TablePair, LoadFault>
    ensures pair { IfOk result (λ pair. image_of bytes.now ≡ Ok (pair_of pair)) }
    ensures image { IfOk result (λ pair. IsImage One bytes.now (pair_of pair)
        ⊎ IsImage Two bytes.now (pair_of pair)) }
    ensures fault { IfErr result (IsFaultOf (image_of bytes.now)) }
{
    let version = read_version(bytes)?;
    let ip4 = read_table(alloc, version, 4, IP4_KEY_LEN as u32, bytes, 8)?;
    let ip6 = read_table(alloc, version, 6, IP6_KEY_LEN as u32, bytes, ip4.end)?;
    checked((), bytes.len() == ip6.end, ImageKind::Trailing, ip6.end)?;
    Ok(TablePair {
        ip4: ip4.table,
        ip6: ip6.table,
    })
}
