// Runs of numbers: read into a list, measured, and written.
ghost use Rattle.std.specs.Prelude.{◌≡◌, length};
ghost use Rattle.buffers.specs.Writing.{Puts, HasRoom};
ghost use Rattle.numbers.specs.Run.{all_zero, stored_all};
ghost use Rattle.numbers.specs.Answers.{RunRead};

use crate::number::{NumberRefusal, number_at, put_number, stored_length};
use buffers::Writer;

// Fills `values` with the numbers that begin at `from`, as far as they can be read, and answers the place after the last.
pub fn numbers_at(bytes: &[u8], from: usize, values: &mut [u32]) -> Result<usize, NumberRefusal>
    ensures { RunRead bytes.now from values.old values.new result }
{
    let mut at = from;
    for value in values.iter_mut() {
        let number = number_at(bytes, at)?;
        *value = number.value;
        at = number.next;
    }
    Ok(at)
}

// The count of bytes in the stored forms of the numbers.
pub fn stored_size(values: &[u32]) -> usize
    ensures { result ≡ length (stored_all values.now) }
{
    values.iter().map(|x| stored_length(*x)).sum()
}

// Puts the stored forms of the numbers. The crate of joint files shows that there is room.
pub fn put_numbers(writer: &mut Writer, values: &[u32])
    requires { HasRoom writer.old (length (stored_all values.now)) }
    ensures { Puts writer.old (stored_all values.now) writer.new }
{
    for value in values {
        put_number(writer, *value);
    }
}

// Whether each number is 0.
pub fn all_zero(values: &[u32]) -> bool
    ensures { result ≡ all_zero values.now }
{
    values.iter().all(|x| *x == 0)
}
