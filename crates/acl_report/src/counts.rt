//! How many packets of each class a capture has.

ghost use Rattle.std.specs.Prelude.{◌≡◌, ◌≤◌, take};
ghost use Rattle.acl_report.specs.declared.line.TheConstants.{LINE_ROOM};
ghost use Rattle.acl_report.specs.Counts.{packets_text};

use crate::line::{LINE_ROOM, append, append_count};
use header_extract::Class;

/// How many records of a capture there were, and how many of each class.
#[derive(Clone, Copy, Default)]
pub struct Counts {
    /// All records, of whatever class.
    pub packets: u64,
    pub ip4: u64,
    pub ip6: u64,
    pub other: u64,
    pub short: u64,
}

impl Counts {
    ghost use Rattle.acl_report.specs.Counting.{CountsFit, counted};

    /// Counts one more record, which is of the class.
    ///
    /// The counts of the classes add up to that of all records, which has room for one more.
    #[inline]
    pub fn add(&mut self, class: Class)
        requires { CountsFit self.old }
        ensures { self.new ≡ counted class self.old }
    {
        self.packets += 1;
        match class {
            Class::Ip4 => self.ip4 += 1,
            Class::Ip6 => self.ip6 += 1,
            Class::Other => self.other += 1,
            Class::Short => self.short += 1,
        }
    }
}

/// Writes the line of the counts to the front of `into`, and gives its length with its LF.
///
/// The line names all records, and after each class how many of them are of it. It takes no
/// memory.
pub fn packets_line(counts: &Counts, into: &mut [u8; LINE_ROOM]) -> usize
    ensures within { result ≤ LINE_ROOM }
    ensures line { take result into.new ≡ packets_text counts.now }
{
    let at = append_count(into, 0, b"packets ", counts.packets);
    let at = append_count(into, at, b" ip4 ", counts.ip4);
    let at = append_count(into, at, b" ip6 ", counts.ip6);
    let at = append_count(into, at, b" other ", counts.other);
    let at = append_count(into, at, b" short ", counts.short);
    append(into, at, b"\n")
}
