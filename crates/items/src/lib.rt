// Items of a line, each with the space before it: numbers in base ten and letters; and what takes them, byte by byte: a writer, which puts
// them into a lent buffer, or a counter, which only measures. So a line is written down once. What is open here is so for the crate of
// lines, which shows that there is room for what it hands over.
#![tactic(auto)]

pub mod number;

ghost use Rattle.std.specs.Prelude.{map, ◌∷◌, [], ◌++◌, length, ℕ, List};
ghost use Rattle.buffers.specs.Writing.{Puts, HasRoom};
ghost use Rattle.buffers.proofs.Writers.{puts_both, puts_none, has_room_first, has_room_after};
ghost use Rattle.items.specs.Digits.{decimal};
ghost use Rattle.items.specs.Items.{spaced, letter};
ghost use Rattle.items.specs.Counting.{Counts, CanCount, counts_both, counts_none, can_count_first, can_count_after};

use buffers::Writer;
use number::{digit_count, put_number};

// What takes bytes, one after another.
pub trait Sink {
    // these bytes can be taken
    ghost has_room: { Self → List ℕ → Type 0 };

    // these bytes were taken
    ghost takes: { Self → List ℕ → Self → Type 0 };

    fn byte(&mut self, byte: u8)
        requires { has_room self.old (byte ∷ []) }
        ensures { takes self.old (byte ∷ []) self.new };

    // Takes a number's digits.
    fn number(&mut self, n: u64)
        requires { has_room self.old (decimal n) }
        ensures { takes self.old (decimal n) self.new };

    ghost takes_none: { (a : Self) → takes a [] a };

    ghost takes_both: { (a b c : Self) (xs ys : List ℕ) → takes a xs b → takes b ys c → takes a (xs ++ ys) c };

    ghost room_first: { (a : Self) (xs ys : List ℕ) → has_room a (xs ++ ys) → has_room a xs };

    ghost room_after: { (a b : Self) (xs ys : List ℕ) → takes a xs b → has_room a (xs ++ ys) → has_room b ys };
}

impl<'a> Sink for Writer<'a> {
    ghost has_room = { λ writer bytes. HasRoom writer (length bytes) };

    ghost takes = { Puts };

    ghost takes_none = { puts_none };

    ghost takes_both = { λ a b c xs ys. puts_both };

    ghost room_first = { has_room_first };

    ghost room_after = { λ a b xs ys. has_room_after ys };

    fn byte(&mut self, byte: u8) {
        self.put(byte);
    }

    fn number(&mut self, n: u64) {
        put_number(self, n);
    }
}

// How many bytes were taken.
#[derive(Clone, Copy)]
pub struct Counter {
    pub count: usize,
}

impl Sink for Counter {
    ghost has_room = { CanCount };

    ghost takes = { Counts };

    ghost takes_none = { counts_none };

    ghost takes_both = { counts_both };

    ghost room_first = { can_count_first };

    ghost room_after = { can_count_after };

    fn byte(&mut self, _byte: u8) {
        self.count += 1;
    }

    fn number(&mut self, n: u64) {
        self.count += digit_count(n);
    }
}

// Hands over numbers as items.
pub fn put_numbers<S: Sink>(sink: &mut S, numbers: &[u64])
    requires { S.has_room sink.old (spaced (map decimal numbers.now)) }
    ensures { S.takes sink.old (spaced (map decimal numbers.now)) sink.new }
{
    for number in numbers {
        sink.byte(b' ');
        sink.number(*number);
    }
}

// Hands over letters as items: one function with the numbers' would take a closure for its second line, and be no plainer.
pub fn put_letters<S: Sink>(sink: &mut S, letters: &[u8])
    requires { S.has_room sink.old (spaced (map letter letters.now)) }
    ensures { S.takes sink.old (spaced (map letter letters.now)) sink.new }
{
    for letter in letters {
        sink.byte(b' ');
        sink.byte(*letter);
    }
}
