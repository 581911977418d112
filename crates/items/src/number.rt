// A number as text in base ten.
ghost use Rattle.std.specs.Prelude.{◌≡◌, length};
ghost use Rattle.buffers.specs.Writing.{Puts, HasRoom};
ghost use Rattle.items.specs.Digits.{decimal};

use buffers::Writer;

// How many digits a number has: one more than the power of ten that it reaches.
pub fn digit_count(n: u64) -> usize
    ensures { result ≡ length (decimal n) }
{
    n.max(1).ilog10() as usize + 1
}

// Puts a number's digits, the lowest first and so from their end. By index, since of what `iter_mut` wrote in reverse a proof knows only the
// length.
pub fn put_number(writer: &mut Writer, n: u64)
    requires { HasRoom writer.old (length (decimal n)) }
    ensures { Puts writer.old (decimal n) writer.new }
{
    let next = writer.at + digit_count(n);
    let digits = &mut writer.buffer[writer.at..next];
    let mut left = n;
    for at in (0..digits.len()).rev() {
        digits[at] = b'0' + (left % 10) as u8;
        left /= 10;
    }
    writer.at = next;
}
