// Joint files on a line: `read BYTES = refusal next J`, the same with `old` for a file of the old kind, and
// `write J size = refusal length BYTES`.
use crate::compare::{Difference, compare, compare_bytes};
use crate::joints::{SHORT_JOINT, joint_words};
use crate::reader::{Items, MOST_BYTES, Sides, in_long_form, put_numbers};
use jointfile::FileKind;
use words::joints::{JOINT_WORDS, JointWords, put_joint};

// The numbers that read answers.
const READ_NUMBERS: usize = JOINT_WORDS + 2;

// Refusal, next place, and the words of the joint, all as numbers, as a line has them.
fn read_numbers(file: &[u8], kind: FileKind) -> [u64; READ_NUMBERS] {
    let mut numbers = [0u64; READ_NUMBERS];
    match jointfile::read(file, kind) {
        Ok(reading) => {
            let mut words = [0u32; JOINT_WORDS];
            put_joint(reading.joint, &mut words);
            put_numbers(&words, &mut numbers[2..]);
            numbers[1] = reading.next as u64;
        }
        Err(refusal) => {
            numbers[0] = u64::from(refusal.number());
            numbers[1] = file.len() as u64;
        }
    }
    numbers
}

// Reads the joint, and the part after it.
pub fn run_read(items: &mut Items, sides: &mut Sides, kind: FileKind) -> Result<(), Difference> {
    let mut space = [0u8; MOST_BYTES];
    let file = items.bytes(&mut space)?;
    items.equals()?;
    items.numbers(&mut sides.answer);
    items.end()?;
    let should = in_long_form::<READ_NUMBERS>(&sides.answer, SHORT_JOINT + 2)?;
    let numbers = read_numbers(file, kind);
    compare(&numbers, &should)?;
    let (_, after) = file
        .split_at_checked(numbers[1] as usize)
        .ok_or(Difference::Bytes)?;
    compare_bytes(jointfile::rest(file, kind), after)
}

// The refusal and the length of writing a joint to a buffer.
fn written_numbers(joint: [u32; JOINT_WORDS], buffer: &mut [u8]) -> [u64; 2] {
    match jointfile::write(JointWords { words: &joint }.joint(), buffer) {
        Ok(length) => [0, length as u64],
        Err(refusal) => [u64::from(refusal.number()), 0],
    }
}

// Writes the joint to a buffer of the size that comes after it, each byte 165 before the call, in hexadecimal a5.
pub fn run_write(items: &mut Items, sides: &mut Sides) -> Result<(), Difference> {
    items.numbers(&mut sides.given);
    items.equals()?;
    let (size, joint) = sides.given.split_last().ok_or(Difference::Unreadable)?;
    let joint = joint_words(joint)?;
    let refusal = items.number().ok_or(Difference::Unreadable)?;
    let length = items.number().ok_or(Difference::Unreadable)?;
    let mut left = [0u8; MOST_BYTES];
    let left = items.bytes(&mut left)?;
    items.end()?;
    let mut space = [165u8; MOST_BYTES];
    let buffer = space
        .get_mut(..*size as usize)
        .ok_or(Difference::Unreadable)?;
    compare(&written_numbers(joint, buffer), &[refusal, length])?;
    compare_bytes(buffer, left)
}
