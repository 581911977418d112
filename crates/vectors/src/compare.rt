// What a call answers beside what its line says.
ghost use Rattle.std.specs.Prelude.{◌≡◌};
ghost use Rattle.vectors.specs.Difference.{compared};

use std::fmt;

// Why a vector did not come out as expected.
#[derive(Clone, Copy, PartialEq, Eq, Debug)]
pub enum Difference {
    // the first item, counted from 1, that differs
    Item { item: u64, is: u64, should: u64 },
    // bytes that a call hands back or leaves
    Bytes,
    // a printed figure that is outside its tolerance, or an exception that is not
    OffPrint { worked: u64, printed: u64 },
    Unreadable,
}

// What is printed after the line's number, to the end of its line.
impl fmt::Display for Difference {
    fn fmt<W: fmt::Write>(&self, f: &mut fmt::Formatter<W>) -> fmt::Result {
        match self {
            Difference::Item { item, is, should } => {
                write!(f, ", item {item}: is {is}, should be {should}\n")
            }
            Difference::Bytes => write!(f, ": other bytes\n"),
            Difference::OffPrint { worked, printed } => {
                write!(f, ": worked {worked}, printed {printed}\n")
            }
            Difference::Unreadable => write!(f, " can't be read\n"),
        }
    }
}

// Compares the numbers of an answer with those of a line.
pub fn compare(are: &[u64], should: &[u64]) -> Result<(), Difference>
    ensures { result ≡ compared are.now should.now }
{
    if are.len() != should.len() {
        return Err(Difference::Unreadable);
    }
    for (place, (is, should)) in are.iter().zip(should).enumerate() {
        if *is != *should {
            return Err(Difference::Item {
                item: place as u64 + 1,
                is: *is,
                should: *should,
            });
        }
    }
    Ok(())
}

// Ok where a test holds, and else the difference.
pub fn hold(test: bool, difference: Difference) -> Result<(), Difference> {
    if test { Ok(()) } else { Err(difference) }
}

// Compares bytes that a call hands back or leaves.
pub fn compare_bytes(are: &[u8], should: &[u8]) -> Result<(), Difference> {
    hold(are == should, Difference::Bytes)
}
