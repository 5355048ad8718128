//! the bytes of a capture file of either format → its records, or its first fault with the number
//! of its record
//!
//! An [`AnyCapture`] reads the opened file of a desk, record by record, as a savefile of libpcap or
//! as a pcapng file:
//!
//! | module | what it reads or says |
//! |---|---|
//! | `any` | the way in: `begin`, which tells the format, and `next` for each record |
//! | `packets` | the next packet of a pcapng file, over all blocks before it |
//! | `blocks` | a block, into a buffer |
//! | `long` | the rest of a block that has no room there, piece by piece |
//! | `reader` | what a block says, and what a reader knows after it |
//! | `interfaces` | the link types of the interfaces of a section |
//! | `front` | what the first twelve bytes of a block say |
//! | `kind` | what a block is for |
//! | `said` | what a block says |
//! | `number` | numbers in the order of a section |
//! | `laws` | what all answers of a reader come to |
//!
//! A pcapng file is a list of blocks, after draft-ietf-opsawg-pcapng. Numbers stand in the order of
//! the section. Three kinds of blocks are read, and all others are passed over:
//!
//!     | type: 4 | total length: 4 | body | total length: 4 |
//!     | section | byte-order magic: 4 | major: 2 | minor: 2 | section length: 8 | options |
//!     | interface | link type: 2 | reserved: 2 | snap length: 4 | options |
//!     | packet | interface: 4 | time: 8 | captured length: 4 | original length: 4 | bytes |
//!
//! What a block says is defined in `specs/Block.antt`, and what a capture means in
//! `specs/Capture.antt`, with examples beside it.
#![tactic(auto)]

mod any;
mod blocks;
mod front;
mod interfaces;
mod kind;
pub mod laws;
mod long;
mod number;
mod packets;
mod reader;
mod said;

pub use any::AnyCapture;
