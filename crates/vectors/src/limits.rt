// Allocate on a line's limits: `allocate count limit .. = refusal force ..`.
use crate::compare::{Difference, compare};
use crate::reader::{Items, Sides};

// No line has more limits.
const MOST_LIMITS: usize = 64;

// Refusal and eight forces.
fn allocated_numbers(count: usize, limits: &[u64]) -> [u64; 9] {
    let mut numbers = [0u64; 9];
    match allocation::allocate(count, limits) {
        Ok(forces) => numbers[1..].copy_from_slice(&forces),
        Err(refusal) => numbers[0] = u64::from(refusal.number()),
    }
    numbers
}

pub fn run(items: &mut Items, sides: &mut Sides) -> Result<(), Difference> {
    items.sides(sides)?;
    let (count, limits) = sides.given.split_first().ok_or(Difference::Unreadable)?;
    if MOST_LIMITS < limits.len() {
        return Err(Difference::Unreadable);
    }
    compare(&allocated_numbers(*count as usize, limits), &sides.answer)
}
