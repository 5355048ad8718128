//! A table made by hand, read back, and parts that come back.

use flat_table::{NotSound, Parts, SoundFault, Table};
use std::alloc::Global;
use std::test::Fail;

/// The parts of the table of a rule on the lowest bit of the last of five bytes, with its match in
/// the last word.
fn parts(alloc: Global, last: u64) -> Result<Parts, Fail> {
    Ok(Parts {
        key_len: 5,
        rules: 1,
        kept: Vec::from_slice(alloc, &[2])?,
        roots: Vec::from_slice(alloc, &[0x2000_0000])?,
        level_lens: Vec::from_slice(alloc, &[1, 1, 1, 5])?,
        words: Vec::from_slice(
            alloc,
            &[
                0x2000_0001,
                0x2000_0002,
                0xFFFF_0201_6000_0003,
                0x8000_0000,
                0x8000_0001,
                0x8000_0000,
                0x8000_0000,
                last,
            ],
        )?,
        rows: Vec::from_slice(alloc, &[[0; 16], [0x1_0000_0007; 16]])?,
    })
}

#[test]
fn a_table_made_by_hand_is_read_back(rt: HostRuntime) -> Result<(), Fail> {
    let table = Table::from_parts(parts(rt.alloc(), 0x8000_0001)?)?;
    assert!(rt; table.tries() == 1);
    assert!(rt; table.total_words() == 40);
    assert!(rt; table.places(0) == [1u16, 2, 3, 4].as_slice());
    assert!(rt; table.kept(0) == 2);
    Ok(())
}

#[test]
fn a_refusal_names_the_word_and_gives_the_parts_back(rt: HostRuntime) -> Result<(), Fail> {
    match Table::from_parts(parts(rt.alloc(), 0x8000_0002)?) {
        Ok(_) => Err(Fail::new("accepted")),
        Err(NotSound { fault, parts }) => {
            assert!(rt; fault == SoundFault::Word(7));
            assert!(rt; parts.words.len() == 8);
            Ok(())
        }
    }
}
