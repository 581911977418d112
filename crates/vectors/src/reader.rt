// The items of a line of text, each with one space before it: numbers in base ten, and bytes in hexadecimal. Safe on any line: what can't
// be read is told.
use crate::compare::{Difference, hold};
use arrayvec::ArrayVec;

// A side of a line has no more numbers: those of a table and of a joint. And none has more bytes.
pub type Numbers = ArrayVec<u64, 91>;

pub const MOST_BYTES: usize = 512;

// What of a line is still to be read.
#[derive(Clone, Copy)]
pub struct Items<'a> {
    left: &'a [u8],
}

// The numbers on the two sides of a line's ` =`. Made once and lent to each line.
#[derive(Drop)]
pub struct Sides {
    pub given: Numbers,
    pub answer: Numbers,
}

impl Sides {
    pub fn new() -> Sides {
        Sides {
            given: Numbers::new(),
            answer: Numbers::new(),
        }
    }
}

impl<'a> Items<'a> {
    pub fn new(line: &'a [u8]) -> Items<'a> {
        Items { left: line }
    }

    // Passes a text that stands next, and tells whether it does.
    pub fn pass(&mut self, text: &[u8]) -> bool {
        let Some(left) = self.left.strip_prefix(text) else {
            return false;
        };
        self.left = left;
        true
    }

    // Passes the ` =` that parts what a call is handed from what it must answer.
    pub fn equals(&mut self) -> Result<(), Difference> {
        hold(self.pass(b" ="), Difference::Unreadable)
    }

    // That the line has been read to its end, or to the ` //` of a note.
    pub fn end(&self) -> Result<(), Difference> {
        let ends = self.left.is_empty() || self.left.starts_with(b" //");
        hold(ends, Difference::Unreadable)
    }

    // The number after the space that stands next.
    pub fn number(&mut self) -> Option<u64> {
        let (number, left) = number_at(self.left)?;
        self.left = left;
        Some(number)
    }

    // Takes up the numbers that stand next, as many as there are and have a place.
    pub fn numbers(&mut self, numbers: &mut Numbers) {
        numbers.clear();
        let mut left = self.left;
        for _ in 0..numbers.capacity() {
            let Some((number, after)) = number_at(left) else {
                break;
            };
            if numbers.try_push(number).is_err() {
                break;
            }
            left = after;
        }
        self.left = left;
    }

    // Takes up the numbers of a line that has nothing else on either side.
    pub fn sides(&mut self, sides: &mut Sides) -> Result<(), Difference> {
        self.numbers(&mut sides.given);
        self.equals()?;
        self.numbers(&mut sides.answer);
        self.end()
    }

    // The bytes after the space that stands next, in the front of a lent space; `-` stands for none.
    pub fn bytes<'b>(&mut self, space: &'b mut [u8; MOST_BYTES]) -> Result<&'b [u8], Difference> {
        if !self.pass(b" ") {
            return Err(Difference::Unreadable);
        }
        if self.pass(b"-") {
            return Ok(&[]);
        }
        let count = self.left.iter().take_while(|byte| is_digit(**byte)).count();
        let (digits, left) = self.left.split_at(count);
        self.left = left;
        let Some(bytes) = space.get_mut(..count / 2) else {
            return Err(Difference::Unreadable);
        };
        hex::decode_to_slice(digits, bytes).map_err(|_| Difference::Unreadable)?;
        Ok(bytes)
    }
}

// The number after the space that a text begins with, and what is left after it. One below 0, down to -2147483648, is read as its two's
// complement in 32 bits.
fn number_at(text: &[u8]) -> Option<(u64, &[u8])> {
    match text {
        [b' ', b'-', after @ ..] => {
            let (below, left) = digits_at(after)?;
            if 2147483648 < below {
                return None;
            }
            Some((4294967296 - below, left))
        }
        [b' ', after @ ..] => digits_at(after),
        _ => None,
    }
}

// The number whose digits a text begins with, and what is left after it. The low half of a digit's byte is its value.
fn digits_at(text: &[u8]) -> Option<(u64, &[u8])> {
    let mut number: u64 = 0;
    let mut count = 0;
    for (place, byte) in text.iter().enumerate() {
        if !byte.is_ascii_digit() {
            break;
        }
        number = number.checked_mul(10)?.checked_add(u64::from(byte & 15))?;
        count = place + 1;
    }
    if count == 0 {
        return None;
    }
    let (_, left) = text.split_at_checked(count)?;
    Some((number, left))
}

// Whether a byte is a digit of a byte in hexadecimal, in lower case.
fn is_digit(byte: u8) -> bool {
    matches!(byte, b'0'..=b'9' | b'a'..=b'f')
}

// Numbers as words of 32 bits.
pub fn put_words(numbers: &[u64], words: &mut [u32]) -> Result<(), Difference> {
    for (word, number) in words.iter_mut().zip(numbers) {
        *word = u32::try_from(*number).map_err(|_| Difference::Unreadable)?;
    }
    Ok(())
}

// Words of 32 bits as numbers.
pub fn put_numbers(words: &[u32], numbers: &mut [u64]) {
    for (number, word) in numbers.iter_mut().zip(words) {
        *number = u64::from(*word);
    }
}

// That so many numbers are those of the short form or of the long one.
pub fn hold_form(count: usize, short: usize, long: usize) -> Result<(), Difference> {
    hold(count == short || count == long, Difference::Unreadable)
}

// Numbers of the short form or of the long one, whose places past the short form's are then 0.
pub fn in_long_form<const LONG: usize>(
    numbers: &[u64],
    short: usize,
) -> Result<[u64; LONG], Difference> {
    hold_form(numbers.len(), short, LONG)?;
    let mut long = [0; LONG];
    for (place, number) in long.iter_mut().zip(numbers) {
        *place = *number;
    }
    Ok(long)
}
