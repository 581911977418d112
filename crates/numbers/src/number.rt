// Numbers of a joint file: groups of seven bits, the lowest first, the top bit set when more follow.
ghost use Rattle.std.specs.Prelude.{◌≡◌, length};
ghost use Rattle.buffers.specs.Writing.{Puts, HasRoom};
ghost use Rattle.numbers.specs.Number.{stored};
ghost use Rattle.numbers.specs.Answers.{NumberRead};

use buffers::Writer;

// Why a number can't be read: the bytes end within it, or it could be stored shorter or has more than 32 bits.
#[derive(Clone, Copy, PartialEq, Eq, Debug)]
pub enum NumberRefusal {
    BytesEnd,
    WrongForm,
}

// A number that was read, and the place after its last byte: by the project's rule an answer has the next place, so places go on from number
// to number, and no part of the bytes.
#[derive(Clone, Copy)]
pub struct Number {
    pub value: u32,
    pub next: usize,
}

// The greatest fifth byte: it has the highest four of 32 bits.
const GREATEST_FIFTH: u32 = 15;

// Reads the number that begins at `from`. `value` is what the groups before `at` make, and `scale` what the next one counts. By index: over
// the part of the bytes from `from` on, reading takes a tenth longer.
pub fn number_at(bytes: &[u8], from: usize) -> Result<Number, NumberRefusal>
    ensures { NumberRead bytes.now from result }
{
    let mut scale = 1;
    let mut value = 0;
    for at in from..bytes.len() {
        let byte = u32::from(bytes[at]);
        let before = at - from;
        if 4 <= before && GREATEST_FIFTH < byte {
            return Err(NumberRefusal::WrongForm);
        }
        if byte < 128 {
            if 0 < before && byte == 0 {
                return Err(NumberRefusal::WrongForm);
            }
            return Ok(Number {
                value: value + scale * byte,
                next: at + 1,
            });
        }
        value += scale * (byte - 128);
        scale *= 128;
    }
    Err(NumberRefusal::BytesEnd)
}

// The count of bytes in a number's stored form: one more than the power of 128 that the number reaches.
#[tactic(auto, using(crate::proofs::Sizes::stored_length))]
pub fn stored_length(x: u32) -> usize
    ensures { result ≡ length (stored x) }
{
    x.max(1).ilog2() as usize / 7 + 1
}

// Puts a number's stored form. `put_numbers` shows that there is room.
pub fn put_number(writer: &mut Writer, x: u32)
    requires { HasRoom writer.old (length (stored x)) }
    ensures { Puts writer.old (stored x) writer.new }
{
    let mut left = x;
    while 128 <= left {
        writer.put((128 + left % 128) as u8);
        left /= 128;
    }
    writer.put(left as u8);
}
