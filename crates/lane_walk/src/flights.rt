//! What lanes keep: flights, of which those whose word is a match stand for empty slots.

ghost use Rattle.std.specs.Prelude.{◌≡◌, ℕ, ◌+◌, ◌<◌, ◌≤◌, length, true, false, None, []};
ghost use Rattle.std.specs.Prelude.{slice_index, slice_index_or};
ghost use Rattle.std.specs.List.{list_all};
ghost use Rattle.table_sizes.specs.Groups.{max_key_len};
ghost use Rattle.flat_table.specs.Word.{index_of, is_match, is_node};
ghost use Rattle.flow_core.specs.Rows.{joined_into};
ghost use Rattle.flow_core.specs.Machine.{moved_to};
ghost use Rattle.flow_core.specs.Standing.{LeadsOnward, held_after, rows_after};
ghost use Rattle.lane_walk.specs.Turn.{EndsOrLeads, HasCome, HasRoom, held_in, no_one};
ghost use Rattle.lane_walk.specs.Turn.{Notes, NotesFour};

use flat_table::{INDEX_BITS, MATCH, Table, index_of, is_end, is_match};
use flow_core::{Flight, Scratch};

/// How many lanes are stepped at once.
pub(crate) const AT_ONCE: usize = 4;

/// What a lane keeps whose slot is empty.
#[inline]
pub(crate) fn no_flight() -> Flight
    ensures held { held_in result ≡ None }
    ensures lawful { EndsOrLeads result }
{
    Flight {
        key: 0,
        trie: 0,
        depth: 0,
        word: MATCH << INDEX_BITS,
    }
}

/// Whether every slot is empty.
pub(crate) fn are_empty(flights: &[Flight]) -> bool
    ensures { result ≡ list_all (λ flight. is_match flight.word) flights.now }
{
    flights.iter().all(|flight| is_match(flight.word))
}

/// Joins the row that the flight's word names, which is a match, into that of its key.
///
/// It is not inlined, so that what stands around it stays small, for few words are a match.
#[inline(never)]
pub(crate) fn join_match(table: &Table, scratch: &mut Scratch, flight: &Flight)
    requires row { index_of flight.now.word < length table.now.rows }
    requires key { flight.now.key < length scratch.old }
    ensures { scratch.new ≡ joined_into flight.now.key
        (slice_index_or table.now.rows (index_of flight.now.word) []) scratch.old }
{
    let (key, word) = (flight.key, flight.word);
    scratch.join(key, table.row(index_of(word)));
}

/// Where the flight came to a match, the row that it names is joined into that of its key.
#[inline]
pub(crate) fn join_ended(table: &Table, scratch: &mut Scratch, flight: &Flight)
    requires { HasCome table.now flight.now (length scratch.old) }
    ensures rows { scratch.new ≡ rows_after table.now flight.now flight.now.word scratch.old }
    ensures len { length scratch.new ≡ length scratch.old }
{
    if is_end(flight.word) {
        join_match(table, scratch, flight);
    }
}

/// The flight at its next word.
#[inline]
pub(crate) fn go_on(flight: &mut Flight, word: u64)
    requires { flight.old.depth < max_key_len }
    ensures { flight.new ≡ moved_to word flight.old }
{
    flight.depth += 1;
    flight.word = word;
}

/// The next word of a flight. After a match the row that it names is joined into that of the
/// flight's key.
#[inline]
pub(crate) fn land(table: &Table, scratch: &mut Scratch, flight: &mut Flight, word: u64)
    requires onward { LeadsOnward table.now flight.old word }
    requires depth { flight.old.depth < max_key_len }
    requires key { flight.old.key < length scratch.old }
    ensures held { held_in flight.new ≡ held_after flight.old word }
    ensures lawful { EndsOrLeads flight.new }
    ensures rows { scratch.new ≡ rows_after table.now flight.old word scratch.old }
{
    go_on(flight, word);
    join_ended(table, scratch, flight);
}

/// The words at four places.
#[inline]
pub(crate) fn words_at(words: &[u64], places: &[u32; AT_ONCE]) -> [u64; AT_ONCE]
    requires { (k : ℕ) → k < AT_ONCE → slice_index places.now k < length words.now }
    ensures { (k : ℕ) → k < AT_ONCE →
        slice_index result k ≡ slice_index words.now (slice_index places.now k) }
{
    [
        words[places[0] as usize],
        words[places[1] as usize],
        words[places[2] as usize],
        words[places[3] as usize],
    ]
}

/// Notes the word of the flight for its key and trie.
///
/// Of the notes for a key and trie only the last is read, whose word ends the walk. But a processor
/// guesses badly which word does so, and a note takes less time than a wrong guess.
#[inline]
pub(crate) fn note_word(scratch: &mut Scratch, flight: &Flight)
    requires { HasRoom flight.now (length scratch.old) }
    ensures notes { Notes flight.now flight.now.word scratch.old scratch.new }
    ensures len { length scratch.new ≡ length scratch.old }
{
    scratch.note(flight.key, flight.trie, flight.word);
}

/// The next word of a flight, which is noted for the flight's key and trie.
#[inline]
pub(crate) fn land_noted(scratch: &mut Scratch, flight: &mut Flight, word: u64)
    requires lawful { is_match word ≡ false → is_node word ≡ true }
    requires depth { flight.old.depth < max_key_len }
    requires room { HasRoom flight.old (length scratch.old) }
    ensures held { held_in flight.new ≡ held_after flight.old word }
    ensures lawful { EndsOrLeads flight.new }
    ensures notes { Notes flight.old word scratch.old scratch.new }
{
    go_on(flight, word);
    note_word(scratch, flight);
}

/// Notes the words of four flights, from one on and in order.
#[inline]
pub(crate) fn note_each(scratch: &mut Scratch, flights: &[Flight], first: usize)
    requires room { first + AT_ONCE ≤ length flights.now }
    requires come { (k : ℕ) → k < AT_ONCE → HasRoom
        (slice_index_or flights.now (first + k) no_one) (length scratch.old) }
    ensures { NotesFour flights.now first scratch.old scratch.new }
{
    note_word(scratch, &flights[first]);
    note_word(scratch, &flights[first + 1]);
    note_word(scratch, &flights[first + 2]);
    note_word(scratch, &flights[first + 3]);
}
