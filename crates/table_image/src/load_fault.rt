//! Why an image is refused.

ghost use Rattle.std.specs.Prelude.{◌≡◌};

use std::alloc::AllocError;
use std::fmt;
use thiserror::Error;

/// What a check of an image found.
#[derive(Clone, Copy, Debug, PartialEq, Eq, Error)]
pub enum ImageKind {
    /// The first field is whole, and it isn't `ACLT`.
    Magic,
    /// The version is neither 1 nor 2.
    Version,
    /// The family of the first table isn't 4, or that of the second isn't 6.
    Family,
    /// The field isn't whole.
    Length,
    /// There are more than 262,144 rules; or more than 8 tries; or more than 67,108,864 words,
    /// sixteen for each row counted, with the rows or with the levels up to this one.
    TooMany,
    /// The root doesn't lead to a node that lies whole in the first level of its trie; or the word
    /// names no row, and leads to no node that lies whole in the next level of its trie.
    Unsound,
    /// The word of a row isn't 0, and its high half is 0 or above the number of rules.
    RowForm,
    /// A byte stands after the last field.
    Trailing,
    /// The trie keeps no group of key bytes, or one that its keys don't have.
    KeptGroups,
}

impl ImageKind {
    /// What was found, in words.
    fn words(self) -> &'static str {
        match self {
            ImageKind::Magic => "magic",
            ImageKind::Version => "version",
            ImageKind::Family => "family",
            ImageKind::Length => "length",
            ImageKind::TooMany => "too many",
            ImageKind::Unsound => "unsound",
            ImageKind::RowForm => "row form",
            ImageKind::Trailing => "trailing",
            ImageKind::KeptGroups => "kept groups",
        }
    }
}

impl fmt::Display for ImageKind {
    fn fmt<W: fmt::Write>(&self, f: &mut fmt::Formatter<W>) -> fmt::Result {
        f.write_str(self.words())
    }
}

/// The first failing check of an image.
#[derive(Clone, Copy, Debug, PartialEq, Eq, Error)]
#[error("byte {place}: {kind}")]
pub struct ImageFault {
    /// The place of the first byte of the field that was checked.
    pub place: u64,
    /// What was found.
    pub kind: ImageKind,
}

/// Why no pair of tables is made of an image.
#[derive(Clone, Copy, Debug, Error)]
pub enum LoadFault {
    /// The bytes are no image, and this is their first failing check.
    #[error("image: {0}")]
    Image(ImageFault),
    /// There is no memory for the tables.
    #[error("out of memory")]
    OutOfMemory,
}

impl From<ImageFault> for LoadFault {
    ghost use Rattle.table_image.specs.declared.load_fault.LoadFault.TheVariants.{Image};

    ghost from_gives = { λ fault made. made ≡ Image fault };

    fn from(fault: ImageFault) -> LoadFault {
        LoadFault::Image(fault)
    }
}

impl From<AllocError> for LoadFault {
    ghost use Rattle.table_image.specs.declared.load_fault.LoadFault.TheVariants.{OutOfMemory};

    ghost from_gives = { λ _ made. made ≡ OutOfMemory };

    fn from(_fault: AllocError) -> LoadFault {
        LoadFault::OutOfMemory
    }
}
