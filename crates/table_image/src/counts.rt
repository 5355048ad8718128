//! The numbers that an image has before the tries of a table.

ghost use Rattle.std.specs.Prelude.{◌≡◌, ◌+◌, ◌*◌, ◌≤◌, length, nat_le, IfOk, IfErr, Ok, Err};
ghost use Rattle.table_sizes.specs.Sizes.{max_rules, max_tries, max_words, row_len};
ghost use Rattle.table_image.specs.ImageReading.{counts};
ghost use Rattle.table_image.specs.Loading.{counts_of};

use crate::field::{checked, short};
use crate::load_fault::{ImageFault, ImageKind};
use table_sizes::{MAX_RULES, MAX_TRIES, MAX_WORDS, ROW_LEN};

/// How many rules, tries and rows a table has, row 0 not counted.
#[derive(Clone, Copy)]
pub(crate) struct Counts {
    pub rules: u32,
    pub tries: u32,
    pub rows: u32,
}

/// Whether so many rows and row 0 are few enough.
fn has_room(rows: u32) -> bool
    ensures { result ≡ nat_le (row_len * (rows + 1)) max_words }
{
    ROW_LEN * (rows as usize + 1) <= MAX_WORDS
}

impl Counts {
    /// The numbers of a table of the family, whose first field stands at the place.
    pub(crate) fn read(family: u32, bytes: &[u8], at: usize) -> Result<Counts, ImageFault>
        requires { at ≤ length bytes.now }
        ensures ok { IfOk result (λ found. counts family bytes.now at ≡ Ok (counts_of found)) }
        ensures err { IfErr result (λ fault. counts family bytes.now at ≡ Err fault) }
        ensures rules { IfOk result (λ found. found.rules ≤ max_rules) }
        ensures tries { IfOk result (λ found. found.tries ≤ max_tries) }
        ensures rows { IfOk result (λ found. row_len * (found.rows + 1) ≤ max_words) }
        ensures inside { IfOk result (λ found. at + 16 ≤ length bytes.now) }
    {
        let number = short(bytes, at)?;
        checked(number, number == family, ImageKind::Family, at)?;
        let rules = short(bytes, at + 4)?;
        let rules = checked(
            rules,
            rules as usize <= MAX_RULES,
            ImageKind::TooMany,
            at + 4,
        )?;
        let tries = short(bytes, at + 8)?;
        let tries = checked(
            tries,
            tries as usize <= MAX_TRIES,
            ImageKind::TooMany,
            at + 8,
        )?;
        let rows = short(bytes, at + 12)?;
        let rows = checked(rows, has_room(rows), ImageKind::TooMany, at + 12)?;
        Ok(Counts { rules, tries, rows })
    }
}
