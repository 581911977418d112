// Work on a line's joint: `work J = refusal field R`, and with a second face `work J = refusal field R R panel face`; after the table of an
// `own` line the same.
use crate::compare::{Difference, compare};
use crate::reader::{Items, Sides, hold_form, in_long_form, put_words};
use bolttable::BoltTable;
use words::joints::{JOINT_WORDS, JointWords};
use words::results::{FACE_WORDS, OUTCOME_WORDS, put_outcome};

// The words of a joint in the short form, which has no second face.
pub const SHORT_JOINT: usize = 38;

// The numbers of what a joint comes to: refusal, field, the words of the outcome and the face; and in the short form.
pub const OUTCOME_NUMBERS: usize = OUTCOME_WORDS + 3;

pub const SHORT_OUTCOME: usize = FACE_WORDS + 2;

// The words of a line's joint, in either form.
pub fn joint_words(numbers: &[u64]) -> Result<[u32; JOINT_WORDS], Difference> {
    hold_form(numbers.len(), SHORT_JOINT, JOINT_WORDS)?;
    let mut words = [0u32; JOINT_WORDS];
    put_words(numbers, &mut words)?;
    Ok(words)
}

// What a joint's words come to with a bolt table in force.
pub fn worked_numbers(table: &BoltTable, joint: &[u32; JOINT_WORDS]) -> [u64; OUTCOME_NUMBERS] {
    let mut numbers = [0u64; OUTCOME_NUMBERS];
    let outcome = work::work(table, &JointWords { words: joint }.joint());
    put_outcome(&outcome, &mut numbers[2..]);
    if let Err(refusal) = outcome {
        numbers[0] = u64::from(refusal.number());
        numbers[1] = u64::from(refusal.field());
        numbers[OUTCOME_NUMBERS - 1] = u64::from(refusal.face());
    }
    numbers
}

// Works the joint of some numbers, with the bolt table that is in force.
pub fn compare_working(table: &BoltTable, joint: &[u64], answer: &[u64]) -> Result<(), Difference> {
    let should = in_long_form::<OUTCOME_NUMBERS>(answer, SHORT_OUTCOME)?;
    compare(&worked_numbers(table, &joint_words(joint)?), &should)
}

pub fn run(items: &mut Items, sides: &mut Sides) -> Result<(), Difference> {
    items.sides(sides)?;
    compare_working(&bolttable::built_in(), &sides.given, &sides.answer)
}
