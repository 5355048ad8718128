//! Images of one rule that every IPv4 key matches, in both versions, and what a changed byte makes
//! of them.

use std::alloc::Global;
use std::process::Abort;
use std::test::Fail;
use table_image::{ImageFault, ImageKind, LoadFault, load, save};

/// The number that both versions begin with, and those that they end with.
const MAGIC: u32 = 0x4143_4C54;

const IP6_TABLE: [u32; 4] = [6, 0, 0, 0];

/// The image of these numbers of four bytes, row 1 and the empty IPv6 table.
fn image(alloc: Global, numbers: &[u32]) -> Result<Vec<u8>, Fail> {
    let mut bytes = Vec::new(alloc);
    for number in numbers {
        bytes.extend_from_slice(&number.to_be_bytes())?;
    }
    for _word in 0..16 {
        bytes.extend_from_slice(&0x1_0000_0001u64.to_be_bytes())?;
    }
    for number in &IP6_TABLE {
        bytes.extend_from_slice(&number.to_be_bytes())?;
    }
    Ok(bytes)
}

/// Version 2: the trie keeps the protocol alone.
fn version_2(alloc: Global) -> Result<Vec<u8>, Fail> {
    image(
        alloc,
        &[MAGIC, 2, 4, 1, 1, 1, 1, 1, 0, 0x20000000, 0, 0x80000001],
    )
}

/// Version 1: a level for each of the thirteen key bytes.
fn version_1(alloc: Global) -> Result<Vec<u8>, Fail> {
    image(
        alloc,
        &[
            MAGIC, 1, 4, 1, 1, 1, 1, 1, 1, 1, 1, 1, 1, 1, 1, 1, 1, 1, 1, 0, 0x20000000, 0,
            0x20000001, 0, 0x20000002, 0, 0x20000003, 0, 0x20000004, 0, 0x20000005, 0, 0x20000006,
            0, 0x20000007, 0, 0x20000008, 0, 0x20000009, 0, 0x2000000A, 0, 0x2000000B, 0,
            0x2000000C, 0, 0x80000001,
        ],
    )
}

/// The first failing check, if any.
fn fault_of(alloc: Global, bytes: &[u8]) -> Result<Option<ImageFault>, Fail> {
    match load(alloc, bytes) {
        Ok(_pair) => Ok(None),
        Err(LoadFault::Image(fault)) => Ok(Some(fault)),
        Err(LoadFault::OutOfMemory) => Err(Fail::new("no memory")),
    }
}

/// That of the bytes with one of them changed.
fn fault_with(
    alloc: Global,
    bytes: &[u8],
    at: usize,
    byte: u8,
) -> Result<Option<ImageFault>, Fail> {
    let mut changed = Vec::from_slice(alloc, bytes)?;
    if at < changed.len() {
        changed[at] = byte;
    }
    fault_of(alloc, &changed)
}

/// Whether each of these changes gives a fault of the kind at the place.
fn all_refused(
    alloc: Global,
    bytes: &[u8],
    changes: &[(usize, u8, u64, ImageKind)],
) -> Result<bool, Fail> {
    for change in changes {
        let (at, byte, place, kind) = *change;
        if fault_with(alloc, bytes, at, byte)? != Some(ImageFault { place, kind }) {
            return Ok(false);
        }
    }
    Ok(true)
}

/// Whether every prefix of the bytes is refused.
fn all_prefixes_refused(alloc: Global, bytes: &[u8]) -> Result<bool, Fail> {
    for len in 0..bytes.len() {
        if fault_of(alloc, &bytes[..len])?.is_none() {
            return Ok(false);
        }
    }
    Ok(true)
}

/// The image is loaded, its IPv4 table has so many words, and it is saved again.
fn saved_again(rt: &impl Abort, alloc: Global, image: &[u8], words: u64) -> Result<Vec<u8>, Fail> {
    let pair = load(alloc, image)?;
    assert!(rt; pair.ip4.total_words() == words);
    Ok(save(alloc, &pair.ip4, &pair.ip6)?)
}

#[test]
fn an_image_of_version_2_is_loaded_and_saved_as_it_was(rt: HostRuntime) -> Result<(), Fail> {
    let two = version_2(rt.alloc())?;
    assert!(rt; two.len() == 192);
    assert!(rt; saved_again(&rt, rt.alloc(), &two, 33)? == two);
    Ok(())
}

#[test]
fn an_image_of_version_1_is_loaded_and_saved_as_version_2(rt: HostRuntime) -> Result<(), Fail> {
    let one = version_1(rt.alloc())?;
    assert!(rt; one.len() == 332);
    assert!(rt; saved_again(&rt, rt.alloc(), &one, 45)?.len() == 336);
    Ok(())
}

#[test]
fn a_changed_byte_of_version_1_is_refused_where_its_field_stands(
    rt: HostRuntime,
) -> Result<(), Fail> {
    let one = version_1(rt.alloc())?;
    let changes = [
        (0, 0x42, 0, ImageKind::Magic),
        (7, 3, 4, ImageKind::Version),
        (11, 6, 8, ImageKind::Family),
        (17, 0xFF, 16, ImageKind::TooMany),
        (80, 0x60, 76, ImageKind::Unsound),
        (99, 1, 92, ImageKind::Unsound),
        (191, 0, 188, ImageKind::RowForm),
        (319, 4, 316, ImageKind::Family),
    ];
    assert!(rt; all_refused(rt.alloc(), &one, &changes)?);
    Ok(())
}

#[test]
fn a_changed_byte_of_version_2_is_refused_where_its_field_stands(
    rt: HostRuntime,
) -> Result<(), Fail> {
    let two = version_2(rt.alloc())?;
    let changes = [
        (7, 3, 4, ImageKind::Version),
        (27, 0, 24, ImageKind::KeptGroups),
        (27, 0x11, 24, ImageKind::KeptGroups),
        (47, 2, 40, ImageKind::Unsound),
        (51, 0, 48, ImageKind::RowForm),
        (51, 2, 48, ImageKind::RowForm),
    ];
    assert!(rt; all_refused(rt.alloc(), &two, &changes)?);
    assert!(rt; fault_with(rt.alloc(), &two, 55, 0)? == None);
    Ok(())
}

/// The bytes are refused for this fault.
fn is_refused(
    rt: &impl Abort,
    alloc: Global,
    bytes: &[u8],
    place: u64,
    kind: ImageKind,
) -> Result<(), Fail> {
    assert!(rt; fault_of(alloc, bytes)? == Some(ImageFault { place, kind }));
    Ok(())
}

#[test]
fn bytes_that_lack_are_refused(rt: HostRuntime) -> Result<(), Fail> {
    let mut one = version_1(rt.alloc())?;
    assert!(rt; all_prefixes_refused(rt.alloc(), &one)?);
    let _last = one.pop();
    is_refused(&rt, rt.alloc(), &one, 328, ImageKind::Length)
}

#[test]
fn bytes_that_lack_or_that_are_left_are_refused(rt: HostRuntime) -> Result<(), Fail> {
    let mut two = version_2(rt.alloc())?;
    assert!(rt; all_prefixes_refused(rt.alloc(), &two)?);
    two.push(0)?;
    is_refused(&rt, rt.alloc(), &two, 192, ImageKind::Trailing)
}
