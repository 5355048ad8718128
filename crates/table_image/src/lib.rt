//! a pair of tables → its image; any bytes → the pair, or the first failing check
//!
//! An image is a header, the two tables of a pair one after the other, and nothing after them. It
//! is read field by field: each part says what is first found wrong in it, with its place.
//!
//! - `pair`, `version`: pairs of tables, and the versions of an image
//! - `saving`, `loading`: [`save`] and [`load`]
//! - `load_fault`: why an image is refused
//! - `table`, `counts`, `tries`, `words`, `rows`: one table of an image, and its parts in order
//! - `field`, `list`: the fields of an image, and lists that grow while one is read or written
//! - `laws`: a pair has one image in each version, bytes without a failing check are an image, and
//!   none is longer than the longest
#![tactic(auto)]

mod counts;
mod field;
pub mod laws;
mod list;
mod load_fault;
mod loading;
mod pair;
mod rows;
mod saving;
mod table;
mod tries;
mod version;
mod words;

pub use load_fault::{ImageFault, ImageKind, LoadFault};
pub use loading::load;
pub use pair::TablePair;
pub use saving::save;
pub use version::Version;
