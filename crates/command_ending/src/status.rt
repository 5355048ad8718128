//! How a command ends.

ghost use Rattle.std.specs.Prelude.{◌≡◌};
ghost use Rattle.command_ending.specs.Message.{code_of};

use classbench_reader::LineFault;
use command_words::UsageFault;
use field_defs::Family;
use pcap_reader::CaptureFault;
use std::alloc::AllocError;
use table_image::ImageFault;

/// How a command ended. Each status has an exit code of its own.
#[derive(Clone, Copy, Debug, PartialEq, Eq)]
pub enum Status {
    /// All was printed, or the file was made.
    Done,
    /// The words of the command line aren't a command.
    Usage(UsageFault),
    /// The rule file isn't one.
    RulesRefused(LineFault),
    /// The rules of a family need a table of more words than the budget, even where they are split.
    TooLarge {
        family: Family,
        words: u64,
        budget: u64,
    },
    /// The capture isn't one. The lines of the records before the fault were printed.
    CaptureRefused(CaptureFault),
    /// The image isn't one. Nothing was printed.
    ImageRefused(ImageFault),
    /// A file can't be read, or isn't there. The lines of the records that were read were printed.
    ReadFault,
    /// The output can't be written, or the file can't be made. A first part of it was.
    WriteFault,
    /// There isn't enough memory. Nothing was printed, and no file made.
    OutOfMemory,
    /// The two rule files have more rules of one family together than a rule set may have.
    TooManyTogether,
    /// The second rule file isn't one.
    SecondRulesRefused(LineFault),
    /// The script has more bytes than a script may have. Nothing was printed.
    ScriptRefused,
}

/// Where memory runs out a command ends so, whatever it was doing.
impl From<AllocError> for Status {
    ghost use Rattle.command_ending.specs.declared.status.Status.TheVariants.{OutOfMemory};

    ghost from_gives = { λ _ status. status ≡ OutOfMemory };

    fn from(_: AllocError) -> Status {
        Status::OutOfMemory
    }
}

impl Status {
    /// The exit code of the program.
    pub fn code(&self) -> u8
        ensures { result ≡ code_of self.now }
    {
        match self {
            Status::Done => 0,
            Status::Usage(_) => 2,
            Status::RulesRefused(_) => 3,
            Status::TooLarge { .. } => 4,
            Status::CaptureRefused(_) => 5,
            Status::ImageRefused(_) => 6,
            Status::ReadFault => 7,
            Status::WriteFault => 8,
            Status::OutOfMemory => 9,
            Status::ScriptRefused => 10,
            Status::TooManyTogether => 11,
            Status::SecondRulesRefused(_) => 12,
        }
    }
}
