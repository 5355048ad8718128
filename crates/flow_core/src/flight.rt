//! What a busy slot holds.

ghost use Rattle.std.specs.Prelude.{◌≡◌, ◌<◌, length};
ghost use Rattle.flow_core.specs.Jobs.{job_at};
ghost use Rattle.flow_core.specs.Machine.{begun};

use flat_table::Table;

/// A walk on its way: the job that it is of, how far it came, and the word at which it stands.
#[derive(Clone, Copy)]
pub struct Flight {
    /// The key that is walked, by its number in the batch.
    pub key: usize,
    /// The trie that it is walked through.
    pub trie: usize,
    /// How many words were taken after the root.
    pub depth: usize,
    /// The word, which is no match.
    pub word: u64,
}

/// The flight of the job of this number, which is just given out: it stands at the root of its
/// trie.
///
/// The table has a trie, and jobs are numbered from 0 on, by key and then by trie. It refuses
/// nothing and takes no memory.
#[inline]
pub fn flight_of(table: &Table, job: usize) -> Flight
    requires { 0 < length table.now.roots }
    ensures { result ≡ begun table.now (job_at table.now job) }
{
    // Of one trie the jobs are the keys.
    let tries = table.tries();
    let (key, trie) = if tries == 1 {
        (job, 0)
    } else {
        (job / tries, job % tries)
    };
    Flight {
        key,
        trie,
        depth: 0,
        word: table.root(trie),
    }
}
