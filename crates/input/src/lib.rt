// An input read to its end, for the programs, which ask it of their standard input. Half of an input must never be taken for all of it: a
// read that fails is told, and is no end.
#![tactic(auto)]

ghost use Rattle.std.specs.Prelude.{IfOk, OnErr, ◌≡◌, length};
ghost use Rattle.input.specs.Spaces.{zeros};
ghost use Rattle.input.specs.Reads.{ReadWhole, Failed};

use std::io;
use std::io::Read;

// Zeros for what is read or printed, in a space of a fixed size, which can't run out of memory.
#[tactic(auto, unfolding(crate::specs::Spaces::zeros))]
pub fn space<const SIZE: usize>() -> [u8; SIZE]
    ensures zeros { result ≡ zeros SIZE }
    ensures size { length result ≡ SIZE }
{
    [0; SIZE]
}

// Fills the front of a space with the bytes of an input, all of them or as many as have a place, and answers how many.
#[tactic(auto, using(crate::proofs::Parts::read_on))]
pub fn read_whole<R: Read>(input: &mut R, space: &mut [u8]) -> io::Result<usize>
    ensures whole { IfOk result (λ count. ReadWhole (R.remaining input.old) (R.remaining input.new) space.new count) }
    ensures failed { OnErr result (Failed (R.remaining input.old) (R.remaining input.new) space.new) }
{
    let mut got = 0;
    while got < space.len() {
        match input.read(&mut space[got..]) {
            Ok(0) => break,
            Ok(count) => got += count,
            Err(failure) => return Err(failure),
        }
    }
    Ok(got)
}
