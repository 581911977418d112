// The integer square root of any u64, by Newton's steps.
ghost use Rattle.std.specs.Prelude.{◌≡◌};
ghost use Rattle.compression.specs.Root.{root_case, Guess};

// The greatest r with r * r at most x, or none for 0, which has a case of its own (docs/DECISIONS.md). By Newton's steps, which are fewer
// than the turns of std's root. A guess that isn't below the root stays so, and falls until it is the root. It is below 2^32, so its square
// fits.
pub fn square_root(x: u64) -> Option<u64>
    ensures { result ≡ root_case x }
{
    if x == 0 {
        return None;
    }
    let mut r = first_guess(x);
    while x < r * r {
        r = (r + x / r) / 2;
    }
    Some(r)
}

// Newton's step from 2 to the power of half the length of x in bits, rounded down. That power may be below the root; a step from it
// isn't. Its quotient is a shift.
fn first_guess(x: u64) -> u64
    ensures { Guess x result }
{
    let half = (64 - x.leading_zeros()) / 2;
    let power = 1u64 << half;
    let quotient = x >> half;
    (power + quotient) / 2
}
