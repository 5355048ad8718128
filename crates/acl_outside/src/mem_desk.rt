//! A desk over memory, which stands in for the file system in tests, and fails where it is told to.

ghost use Rattle.std.specs.Prelude.{◌≡◌, ◌+◌, ◌^◌, ◌<◌, length, take, min, option_map};
ghost use Rattle.acl_outside.specs.Desk.{bytes_of};
ghost use Rattle.acl_outside.specs.MemFile.{IsFound, IsInHand, StandsAt, files_of, hand_of};
ghost use Rattle.acl_outside.specs.Memory.{left_in};

use crate::desk::{Desk, Failed};
use crate::listed::is_listed;
use crate::made_file::MadeFile;
use crate::transcript::Transcript;
use std::alloc::{AllocError, Global};
use std::marker::Model;

/// A file in memory.
#[derive(Drop)]
pub struct MemFile {
    /// What the file is opened by.
    pub name: String,
    /// What it holds, from its beginning to its end.
    pub bytes: Vec<u8>,
}

/// Files in memory, read and written a piece at a time, with room for one created file. It tells
/// its content, and none of its calls takes memory.
///
/// Its calls of `open_file` and `read` are numbered together from 1, and so are those of
/// `create_file`, `write` and `finish`. Where a call's number stands in the list of its kind that
/// the desk was made with, the call fails: it is a read fault or a write fault. An `open_file` of a
/// name that isn't there fails too, and then counts as absent, whether its number is listed or not.
/// A `create_file` of a name above 255 bytes, or of another name than that of the file created
/// first, is a write fault, and so is a `write` with no room left. A call with an empty slice has a
/// number, and never fails. No other call of it fails. At 2^64 - 1 the numbers of calls and the
/// counts of faults stand still.
#[derive(Drop)]
pub struct MemDesk {
    files: Vec<MemFile>,
    made: MadeFile,
    in_hand: InHand,
    /// How many bytes of the opened file were read.
    at: usize,
    /// How many bytes a read gives, or a write takes, at most.
    piece: usize,
    failing_reads: Vec<u64>,
    failing_writes: Vec<u64>,
    reads: u64,
    writes: u64,
    read_faults: u64,
    absent: u64,
    write_faults: u64,
    transcript: Transcript,
}

/// What a desk has in hand.
#[derive(Clone, Copy)]
pub(crate) enum InHand {
    Nothing,
    /// The given file at this place, which is read.
    Given(usize),
    /// The created file, which is read.
    Made,
    /// The created file, which is written.
    Writing,
}

impl Model for MemDesk {
    ghost use Rattle.std.specs.Prelude.{◌<◌, IsTrue};
    ghost use Rattle.acl_outside.specs.Answers.{answers_of};
    ghost use Rattle.acl_outside.specs.Memory.{MemDeskView, distinct_names};
    ghost use Rattle.acl_outside.specs.MemFile.{files_of, hand_of, IsInHand};

    ghost Value = { MemDeskView };

    ghost view = { λ desk. record {
      given = files_of desk.files.items;
      made = desk.made;
      hand = hand_of desk.files.items desk.made desk.in_hand desk.at;
      answers = answers_of desk.transcript.notes;
      piece = desk.piece;
      failing_reads = desk.failing_reads.items;
      failing_writes = desk.failing_writes.items;
      reads = desk.reads;
      writes = desk.writes;
      read_faults = desk.read_faults;
      absent = desk.absent;
      write_faults = desk.write_faults;
    } };

    ghost invariant = { λ desk. IsTrue (distinct_names (files_of desk.files.items)) ×
        (0 < desk.piece) × IsInHand desk.files.items desk.made desk.in_hand desk.at };
}

impl MemDesk {
    ghost use Rattle.std.specs.Prelude.{◌≡◌, ◌<◌, IfOk, IsTrue, option_map};
    ghost use Rattle.acl_outside.specs.Desk.{bytes_of};
    ghost use Rattle.acl_outside.specs.MemFile.{files_of};
    ghost use Rattle.acl_outside.specs.Memory.{all_files, desk_over, distinct_names};

    /// Whether no two of the files have one name.
    pub fn has_distinct_names(files: &[MemFile]) -> bool
        ensures { result ≡ distinct_names (files_of files.now) }
    {
        let mut rest = files;
        'files: while let [file, others @ ..] = rest {
            if place_of(others, &file.name).is_some() {
                return false;
            }
            rest = others;
        }
        true
    }

    /// A desk over these files with room for a created file of `room` bytes, which moves at most
    /// `piece` bytes in a read or a write, and whose calls of the numbers `failing_reads` and
    /// `failing_writes` fail.
    ///
    /// No two files have one name, and `piece` is at least 1. It takes the memory for the created
    /// file, and is an `Err` where that can't be had.
    pub fn new(
        alloc: Global,
        files: Vec<MemFile>,
        piece: usize,
        room: usize,
        failing_reads: Vec<u64>,
        failing_writes: Vec<u64>,
    ) -> Result<MemDesk, AllocError>
        requires distinct { IsTrue (distinct_names (files_of files.items)) }
        requires moves { 0 < piece }

        ensures { IfOk result (λ desk. desk ≡ desk_over (files_of files.items) piece room
            failing_reads.items failing_writes.items) }
    {
        let made = MadeFile::new(alloc, room)?;
        Ok(MemDesk {
            files,
            made,
            in_hand: InHand::Nothing,
            at: 0,
            piece,
            failing_reads,
            failing_writes,
            reads: 0,
            writes: 0,
            read_faults: 0,
            absent: 0,
            write_faults: 0,
            transcript: Transcript::new(),
        })
    }

    /// The bytes of the named file, or `None` where no such file is there.
    pub fn file(&self, name: &str) -> Option<&[u8]>
        ensures { option_map (λ bytes. bytes.now) result ≡ bytes_of (all_files self.now) name.now }
    {
        if self.made.is_named(name) {
            return Some(self.made.bytes());
        }
        given_bytes(&self.files, name)
    }

    /// How many of its calls were read faults.
    pub fn read_fault_count(&self) -> u64
        ensures { result ≡ self.now.read_faults }
    {
        self.read_faults
    }

    /// How many openings named a file that isn't there.
    pub fn absent_count(&self) -> u64
        ensures { result ≡ self.now.absent }
    {
        self.absent
    }

    /// How many of its calls were write faults.
    pub fn write_fault_count(&self) -> u64
        ensures { result ≡ self.now.write_faults }
    {
        self.write_faults
    }
}

/// The bytes of the named file, if it is there.
fn given_bytes<'a>(files: &'a [MemFile], name: &str) -> Option<&'a [u8]>
    ensures { option_map (λ bytes. bytes.now) result ≡ bytes_of (files_of files.now) name.now }
{
    match place_of(files, name) {
        Some(place) => Some(&files[place].bytes),
        None => None,
    }
}

/// The place of the named file.
fn place_of(files: &[MemFile], name: &str) -> Option<usize>
    ensures { StandsAt files.now name.now result }
{
    for (place, file) in files.iter().enumerate() {
        if file.name.as_str() == name {
            return Some(place);
        }
    }
    None
}

/// The named file, to be read from its beginning.
fn find(files: &[MemFile], made: &MadeFile, name: &str) -> Option<InHand>
    ensures { IsFound files.now made.now name.now result }
{
    if made.is_named(name) {
        return Some(InHand::Made);
    }
    let place = place_of(files, name)?;
    Some(InHand::Given(place))
}

/// The bytes of the opened file from `at` on, and none where no file is opened.
fn left_of<'a>(files: &'a [MemFile], made: &'a MadeFile, in_hand: InHand, at: usize) -> &'a [u8]
    requires { IsInHand files.now made.now in_hand at }
    ensures left { result.now ≡ left_in (hand_of files.now made.now in_hand at) }
    ensures fits { at + length result.now < 2 ^ 64 }
{
    match in_hand {
        InHand::Nothing | InHand::Writing => &[],
        InHand::Given(place) => &files[place].bytes[at..],
        InHand::Made => &made.bytes()[at..],
    }
}

/// Copies the first bytes into the beginning of the slice, and says how many they are: at most
/// `piece`.
fn move_prefix(bytes: &[u8], into: &mut [u8], piece: usize) -> usize
    ensures moved { result ≡ min piece (min (length into.old) (length bytes.now)) }
    ensures prefix { take result into.new ≡ take result bytes.now }
{
    let count = piece.min(into.len().min(bytes.len()));
    into[..count].copy_from_slice(&bytes[..count]);
    count
}

impl Desk for MemDesk {
    ghost use Rattle.std.specs.Prelude.{◌≡◌, length, not, nat_lt, ◌&&◌, is_ok, is_err, IsTrue, IfOk, if◌then◌else◌};
    ghost use Rattle.acl_outside.specs.Fault.{next_count};
    ghost use Rattle.acl_outside.specs.Desk.{OpensFile, ReadsInto, CreatesFile, WritesPiece, FinishesFile, moved_by};
    ghost use Rattle.acl_outside.specs.MemFile.{takes_name};
    ghost use Rattle.acl_outside.specs.Memory.{CountsRead, CountsWrite, shown_desk, next_read_fails, next_write_fails, has_file, read_len, write_fails, write_len, made_anew, made_longer};

    ghost view = { shown_desk };

    fn open_file(&mut self, name: &str) -> Result<(), Failed>
        ensures opens { OpensFile name.now (shown_desk self.old) (shown_desk self.new) result }
        // Exactly where it succeeds, and which count rises where it doesn't.
        ensures succeeds { is_ok result ≡ (has_file self.old name.now &&
            not (next_read_fails self.old)) }
        ensures read_faults { self.new.read_faults ≡
            (if has_file self.old name.now && next_read_fails self.old
            then next_count self.old.read_faults else self.old.read_faults) }
        ensures absent { self.new.absent ≡ (if has_file self.old name.now then self.old.absent else
            next_count self.old.absent) }
        ensures call { CountsRead self.old self.new }
    {
        self.reads = self.reads.saturating_add(1);
        self.in_hand = InHand::Nothing;
        let Some(found) = find(&self.files, &self.made, name) else {
            self.absent = self.absent.saturating_add(1);
            self.transcript.note_not_opened(name);
            return Err(Failed);
        };
        if is_listed(&self.failing_reads, self.reads) {
            self.read_faults = self.read_faults.saturating_add(1);
            self.transcript.note_not_opened(name);
            return Err(Failed);
        }
        self.in_hand = found;
        self.at = 0;
        self.transcript.note_opened(name);
        Ok(())
    }

    fn read(&mut self, into: &mut [u8]) -> Result<usize, Failed>
        requires { IsTrue (shown_desk self.old).reading }

        ensures reads { ReadsInto into.old into.new (shown_desk self.old) (shown_desk self.new)
            result }
        // Exactly where it fails, and how many bytes it gives where it doesn't.
        ensures fails { is_err result ≡ (nat_lt 0 (length into.old) && next_read_fails self.old) }
        ensures moved { IfOk result (λ count. count ≡ read_len self.old (length into.old)) }
        ensures read_faults { self.new.read_faults ≡
            (if is_ok result then self.old.read_faults else next_count self.old.read_faults) }
        ensures call { CountsRead self.old self.new }
    {
        self.reads = self.reads.saturating_add(1);
        if !into.is_empty() && is_listed(&self.failing_reads, self.reads) {
            self.read_faults = self.read_faults.saturating_add(1);
            self.transcript.note_failed(into.len());
            return Err(Failed);
        }
        let left = left_of(&self.files, &self.made, self.in_hand, self.at);
        let count = move_prefix(left, into, self.piece);
        self.at += count;
        self.transcript.note_given(into.len(), &into[..count]);
        Ok(count)
    }

    /// No read of memory waits.
    #[inline]
    fn at_hand(&self) -> Option<&[u8]> {
        None
    }

    fn create_file(&mut self, name: &str) -> Result<(), Failed>
        ensures creates { CreatesFile name.now (shown_desk self.old) (shown_desk self.new) result }
        // Exactly where it succeeds, and what is made then.
        ensures succeeds { is_ok result ≡ (takes_name self.old.made name.now &&
            not (next_write_fails self.old)) }
        ensures made { self.new.made ≡ (if is_ok result then made_anew name.now self.old.made else
            self.old.made) }
        ensures write_faults { self.new.write_faults ≡
            (if is_ok result then self.old.write_faults else next_count self.old.write_faults) }
        ensures call { CountsWrite self.old self.new }
    {
        self.writes = self.writes.saturating_add(1);
        self.in_hand = InHand::Nothing;
        if !self.made.takes_name(name) || is_listed(&self.failing_writes, self.writes) {
            self.write_faults = self.write_faults.saturating_add(1);
            self.transcript.note_not_created(name);
            return Err(Failed);
        }
        self.made.create(name);
        self.in_hand = InHand::Writing;
        self.transcript.note_created(name);
        Ok(())
    }

    fn write(&mut self, piece: &[u8]) -> Result<usize, Failed>
        requires { IsTrue (shown_desk self.old).writing }

        ensures writes { WritesPiece piece.now (shown_desk self.old) (shown_desk self.new) result }
        // Exactly where it fails, and how many bytes it takes where it doesn't.
        ensures fails { is_err result ≡ write_fails self.old (length piece.now) }
        ensures moved { IfOk result (λ count. count ≡ write_len self.old (length piece.now)) }
        ensures made { self.new.made ≡ made_longer (moved_by result piece.now) self.old.made }
        ensures write_faults { self.new.write_faults ≡
            (if is_ok result then self.old.write_faults else next_count self.old.write_faults) }
        ensures call { CountsWrite self.old self.new }
    {
        self.writes = self.writes.saturating_add(1);
        let free = self.made.free();
        if !piece.is_empty() && (free == 0 || is_listed(&self.failing_writes, self.writes)) {
            self.write_faults = self.write_faults.saturating_add(1);
            self.transcript.note_not_written();
            return Err(Failed);
        }
        let count = self.piece.min(piece.len().min(free));
        self.made.append(&piece[..count]);
        self.transcript.note_written(&piece[..count]);
        Ok(count)
    }

    fn finish(&mut self) -> Result<(), Failed>
        requires { IsTrue (shown_desk self.old).writing }

        ensures finishes { FinishesFile (shown_desk self.old) (shown_desk self.new) result }
        // Exactly where it fails.
        ensures fails { is_err result ≡ next_write_fails self.old }
        ensures made { self.new.made ≡ self.old.made }
        ensures write_faults { self.new.write_faults ≡
            (if is_ok result then self.old.write_faults else next_count self.old.write_faults) }
        ensures call { CountsWrite self.old self.new }
    {
        self.writes = self.writes.saturating_add(1);
        self.in_hand = InHand::Nothing;
        if is_listed(&self.failing_writes, self.writes) {
            self.write_faults = self.write_faults.saturating_add(1);
            self.transcript.note_not_finished();
            return Err(Failed);
        }
        self.transcript.note_finished();
        Ok(())
    }
}
