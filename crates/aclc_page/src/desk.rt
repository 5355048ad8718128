//! The bytes of a page as the files of a desk.

ghost use Rattle.std.specs.Prelude.{◌≡◌, IfOk, string_bytes};

use acl_outside::{Desk, Failed, MemDesk, MemFile};
use std::alloc::{AllocError, Global};
use std::marker::Model;

/// How many bytes a read gives at most.
const PIECE: usize = 1_073_741_824;

/// A desk that has some files and nothing else. No read of it fails, and it has no room for a file
/// that is created.
#[derive(Drop)]
pub(crate) struct PageDesk {
    inside: MemDesk,
}

impl Model for PageDesk {
    ghost use Rattle.std.specs.Prelude.{◌≡◌, []};
    ghost use Rattle.acl_outside.specs.Memory.{MemDeskView};

    ghost Value = { MemDeskView };

    ghost view = { λ desk. desk.inside };

    ghost invariant = { λ desk. (desk.inside.failing_reads ≡ []) ×
        (desk.inside.read_faults ≡ 0) };
}

impl PageDesk {
    ghost use Rattle.std.specs.Prelude.{◌≡◌, IfOk, IsTrue};
    ghost use Rattle.acl_outside.specs.MemFile.{files_of};
    ghost use Rattle.acl_outside.specs.Memory.{distinct_names};
    ghost use Rattle.aclc_page.specs.Given.{desk_of};

    /// A desk over these files, of which no two have one name.
    pub(crate) fn new(alloc: Global, files: Vec<MemFile>) -> Result<PageDesk, AllocError>
        requires { IsTrue (distinct_names (files_of files.items)) }
        ensures { IfOk result (λ desk. desk ≡ desk_of (files_of files.items)) }
    {
        let inside = MemDesk::new(alloc, files, PIECE, 0, Vec::new(alloc), Vec::new(alloc))?;
        Ok(PageDesk { inside })
    }

    /// No read of it failed. It does nothing when it is run.
    pub(crate) fn never_failed(&self)
        ensures { self.now.read_faults ≡ 0 }
    {
        let _ = &self.inside;
    }
}

impl Desk for PageDesk {
    ghost use Rattle.std.specs.Prelude.{◌≡◌, IsTrue, is_ok};
    ghost use Rattle.acl_outside.specs.Desk.{OpensFile, ReadsInto, CreatesFile, WritesPiece, FinishesFile};
    ghost use Rattle.acl_outside.specs.Memory.{has_file, shown_desk};

    ghost view = { shown_desk };

    fn open_file(&mut self, name: &str) -> Result<(), Failed>
        ensures opens { OpensFile name.now (shown_desk self.old) (shown_desk self.new) result }
        // Exactly where it succeeds.
        ensures succeeds { is_ok result ≡ has_file self.old name.now }
    {
        self.inside.open_file(name)
    }

    fn read(&mut self, into: &mut [u8]) -> Result<usize, Failed>
        requires { IsTrue (shown_desk self.old).reading }
        ensures { ReadsInto into.old into.new (shown_desk self.old) (shown_desk self.new) result }
    {
        self.inside.read(into)
    }

    fn at_hand(&self) -> Option<&[u8]> {
        self.inside.at_hand()
    }

    fn create_file(&mut self, name: &str) -> Result<(), Failed>
        ensures { CreatesFile name.now (shown_desk self.old) (shown_desk self.new) result }
    {
        self.inside.create_file(name)
    }

    fn write(&mut self, piece: &[u8]) -> Result<usize, Failed>
        requires { IsTrue (shown_desk self.old).writing }
        ensures { WritesPiece piece.now (shown_desk self.old) (shown_desk self.new) result }
    {
        self.inside.write(piece)
    }

    fn finish(&mut self) -> Result<(), Failed>
        requires { IsTrue (shown_desk self.old).writing }
        ensures { FinishesFile (shown_desk self.old) (shown_desk self.new) result }
    {
        self.inside.finish()
    }
}

/// A file of this name and these bytes. It takes memory for both.
pub(crate) fn file_of(alloc: Global, name: &str, bytes: &[u8]) -> Result<MemFile, AllocError>
    ensures { IfOk result
        (λ file. (string_bytes file.name ≡ name.now) × (file.bytes.items ≡ bytes.now)) }
{
    Ok(MemFile {
        name: String::from_str(alloc, name)?,
        bytes: Vec::from_slice(alloc, bytes)?,
    })
}
