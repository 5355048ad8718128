//! The fields of an image, and the checks of their numbers. Nothing here takes memory.

ghost use Rattle.std.specs.Prelude.{◌≡◌, ◌+◌, ◌≤◌, length, IfOk};
ghost use Rattle.table_image.specs.ImageReading.{checked, field};

use crate::load_fault::{ImageFault, ImageKind};
use byte_numbers::{network_u32_at, network_u64_at};

/// How many bytes a number of 32 bits has.
pub(crate) const SHORT: usize = 4;

/// How many bytes a number of 64 bits has.
pub(crate) const LONG: usize = 8;

/// How many words are read or written at a time: 1 KiB, which stays in the nearest cache.
pub(crate) const PORTION: usize = 128;

/// The value, if it passes the check at the place.
pub(crate) fn checked<T: Copy>(
    value: T,
    passes: bool,
    kind: ImageKind,
    at: usize,
) -> Result<T, ImageFault>
    ensures { result ≡ checked passes kind at value }
{
    if passes {
        Ok(value)
    } else {
        Err(ImageFault {
            place: at as u64,
            kind,
        })
    }
}

/// The number of the four bytes at the place, which have to be there.
pub(crate) fn short(bytes: &[u8], at: usize) -> Result<u32, ImageFault>
    requires { at ≤ length bytes.now }
    ensures number { result ≡ field 4 bytes.now at }
    ensures inside { IfOk result (λ _. at + 4 ≤ length bytes.now) }
{
    if bytes.len() - at < SHORT {
        return Err(ImageFault {
            place: at as u64,
            kind: ImageKind::Length,
        });
    }
    Ok(network_u32_at(bytes, at))
}

/// The number of the eight bytes at the place, which have to be there.
pub(crate) fn long(bytes: &[u8], at: usize) -> Result<u64, ImageFault>
    requires { at ≤ length bytes.now }
    ensures number { result ≡ field 8 bytes.now at }
    ensures inside { IfOk result (λ _. at + 8 ≤ length bytes.now) }
{
    if bytes.len() - at < LONG {
        return Err(ImageFault {
            place: at as u64,
            kind: ImageKind::Length,
        });
    }
    Ok(network_u64_at(bytes, at))
}
