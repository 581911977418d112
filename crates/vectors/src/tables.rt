// Bolt tables on a line: `load T = refusal T`, where the table built in is in force before; and `own T J = ..`, which is `work J = ..` with
// the table T in force.
use crate::compare::{Difference, compare};
use crate::joints;
use crate::reader::{Items, Sides, put_numbers, put_words};
use bolttable::BoltTable;
use words::tables::{TABLE_WORDS, TableWords, put_table};

// The numbers that loading answers.
const LOAD_NUMBERS: usize = TABLE_WORDS + 1;

// Refusal, and the words of the table that is then in force.
fn loaded_numbers(table: &BoltTable) -> [u64; LOAD_NUMBERS] {
    let mut in_force = bolttable::built_in();
    let mut numbers = [0u64; LOAD_NUMBERS];
    if let Err(refusal) = bolttable::load(&mut in_force, table) {
        numbers[0] = u64::from(refusal.number());
    }
    let mut words = [0u32; TABLE_WORDS];
    put_table(&in_force, &mut words);
    put_numbers(&words, &mut numbers[1..]);
    numbers
}

// The table of a line's numbers.
fn table_from(numbers: &[u64]) -> Result<BoltTable, Difference> {
    if numbers.len() != TABLE_WORDS {
        return Err(Difference::Unreadable);
    }
    let mut words = [0u32; TABLE_WORDS];
    put_words(numbers, &mut words)?;
    Ok(TableWords { words: &words }.table())
}

pub fn run_load(items: &mut Items, sides: &mut Sides) -> Result<(), Difference> {
    items.sides(sides)?;
    let table = table_from(&sides.given)?;
    compare(&loaded_numbers(&table), &sides.answer)
}

pub fn run_own(items: &mut Items, sides: &mut Sides) -> Result<(), Difference> {
    items.sides(sides)?;
    let (table, joint) = sides
        .given
        .split_at_checked(TABLE_WORDS)
        .ok_or(Difference::Unreadable)?;
    joints::compare_working(&table_from(table)?, joint, &sides.answer)
}
