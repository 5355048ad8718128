//! The files that a program reads and makes.

ghost use Rattle.std.specs.Prelude.{IsTrue};
ghost use Rattle.acl_outside.specs.Desk.{DeskView, OpensFile, ReadsInto, CreatesFile, WritesPiece, FinishesFile};

/// A call to the outside failed, and a count of the object that was asked tells so.
#[derive(Clone, Copy, Debug, PartialEq, Eq)]
pub struct Failed;

/// Named files, of which one at a time is in hand: it is opened and read from its beginning to its
/// end, or it is created, written piece by piece and finished.
///
/// A desk begins with no answer given, no file opened or created and all its counts 0. No call
/// takes memory where the implementation doesn't say so. A call that fails changes no file.
pub trait Desk {
    /// What the desk shows of itself: its files where it tells them, its answers so far, whether a
    /// file is opened, whether one is created and not finished, and its counts of faults.
    ghost view: { Self → DeskView };

    /// Opens the named file for reading, from its beginning. The file that was opened or created
    /// before is given up.
    ///
    /// `Failed`: the file isn't there or can't be opened, and no file is in hand afterwards.
    fn open_file(&mut self, name: &str) -> Result<(), Failed>
        ensures { OpensFile name.now (view self.old) (view self.new) result };

    /// Reads the next bytes of the opened file into the beginning of `into`, and says how many they
    /// are: at least one, or none at the end of the file and where `into` is empty. What stands
    /// after them in `into` is left open.
    ///
    /// A file has to be opened. `Failed`: the bytes can't be read, and none is lost.
    fn read(&mut self, into: &mut [u8]) -> Result<usize, Failed>
        requires { IsTrue (view self.old).reading }

        ensures { ReadsInto into.old into.new (view self.old) (view self.new) result };

    /// The next bytes of the opened file that are at hand, where reading more may have to wait, as
    /// it has to for a pipe into which no more was written yet. `None` where no read is known to
    /// wait.
    ///
    /// No clause says anything of the answer: it may settle when work is done, and never what the
    /// work comes to.
    fn at_hand(&self) -> Option<&[u8]>;

    /// Creates the named file, which is empty then, also where it was there before. The file that
    /// was opened or created before is given up.
    ///
    /// `Failed`: the file can't be created, and no file is in hand afterwards.
    fn create_file(&mut self, name: &str) -> Result<(), Failed>
        ensures { CreatesFile name.now (view self.old) (view self.new) result };

    /// Writes a prefix of the piece at the end of the created file, and says how many bytes it has:
    /// at least one, but for an empty piece.
    ///
    /// A file has to be created and not finished. `Failed`: nothing was written.
    fn write(&mut self, piece: &[u8]) -> Result<usize, Failed>
        requires { IsTrue (view self.old).writing }

        ensures { WritesPiece piece.now (view self.old) (view self.new) result };

    /// Finishes the created file: what was written of it is kept. No file is in hand afterwards.
    ///
    /// A file has to be created and not finished. `Failed`: the file may not be kept.
    fn finish(&mut self) -> Result<(), Failed>
        requires { IsTrue (view self.old).writing }

        ensures { FinishesFile (view self.old) (view self.new) result };
}
