// A bolt table as words, and back: its count, its twelve diameters and its twelve areas.
ghost use Rattle.std.specs.Prelude.{◌≡◌, ◌≤◌, length};
ghost use Rattle.bolttable.specs.Lent.{table_of};
ghost use Rattle.buffers.specs.Put.{at_front};
ghost use Rattle.words.specs.Tables.{table_word_count, table_of_words, words_of_table};

use crate::lent::LentWords;
use bolttable::{BoltTable, LentTable, PLACES};

// How many words a table is, and where its areas begin.
pub const TABLE_WORDS: usize = AREAS + PLACES;

const AREAS: usize = 1 + PLACES;

// The words of a table.
pub type TableWords<'a> = LentWords<'a, TABLE_WORDS>;

impl<'a> TableWords<'a> {
    pub fn table(self) -> BoltTable
        ensures { result ≡ table_of_words self.entry.words.now }
    {
        BoltTable {
            count: self.words[0],
            diameters: self.words[1..AREAS].try_into().unwrap(),
            areas: self.words[AREAS..TABLE_WORDS].try_into().unwrap(),
        }
    }

    // The table with its places lent: nothing is copied.
    #[tactic(auto, unfolding(crate::specs::Tables::table_of_words))]
    pub fn lent(self) -> LentTable<'a>
        ensures { table_of result ≡ table_of_words self.entry.words.now }
    {
        let count = self.words[0];
        LentTable {
            count,
            diameters: &self.words[1..AREAS],
            areas: &self.words[AREAS..TABLE_WORDS],
        }
    }

    // Copies the words of the table to the front of a slice.
    pub fn put(self, words: &mut [u32])
        requires { table_word_count ≤ length words.old }
        ensures { words.new ≡ at_front (words_of_table (table_of_words self.entry.words.now)) words.old }
    {
        words[..TABLE_WORDS].copy_from_slice(&self.words[..TABLE_WORDS]);
    }
}

// Puts a table's words at the front of a slice. It is taken apart first: the words of the table built in are then stored as constants, and not
// put into memory and copied from there.
pub fn put_table(table: &BoltTable, words: &mut [u32])
    requires { table_word_count ≤ length words.old }
    ensures { words.new ≡ at_front (words_of_table table.now) words.old }
{
    let BoltTable {
        count,
        diameters,
        areas,
    } = *table;
    words[0] = count;
    words[1..AREAS].copy_from_slice(&diameters);
    words[AREAS..TABLE_WORDS].copy_from_slice(&areas);
}
