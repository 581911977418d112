// Printed figures of SCI P207 beside what Work gives:
// `cell LINE COUNT PRINTED TOLERANCE PLACE J = refusal field R` is a figure that Work gives within its tolerance, and `exception` one that
// it is known not to; `shear LINE COUNT PRINTED TOLERANCE J = pass pass` is a capacity that shows in the verdict on the bolts alone.
// LINE is where the figure stands in P207's text, COUNT how many of what is printed the joint has, and PLACE which of the answer's numbers
// it is.
use crate::compare::{Difference, compare, hold};
use crate::joints::{SHORT_JOINT, SHORT_OUTCOME, joint_words, worked_numbers};
use crate::reader::{Items, Sides, put_words};
use bolttable::built_in;
use words::joints::JOINT_WORDS;

// Where V, field 28, stands among a joint's words, and the verdict on the bolts among the numbers of what it comes to.
const SHEAR: usize = 27;

const BOLTS: usize = 16;

// So many of a printed figure, each with its tolerance.
#[derive(Clone, Copy)]
struct Figure {
    count: u32,
    printed: u32,
    tolerance: u32,
}

impl Figure {
    fn total(self) -> u64 {
        u64::from(self.count) * u64::from(self.printed)
    }

    fn is_near(self, worked: u64) -> bool {
        worked.abs_diff(self.total()) <= u64::from(self.count) * u64::from(self.tolerance)
    }

    // The least and the greatest figure that it stands for, in 32 bits.
    fn ends(self) -> Option<(u32, u32)> {
        let least = self.printed.checked_sub(self.tolerance)?;
        let most = self.printed.checked_add(self.tolerance)?;
        Some((
            self.count.checked_mul(least)?,
            self.count.checked_mul(most)?,
        ))
    }
}

// The numbers of a line's left side, cut into those at its head and those of a joint in the short form.
fn head_and_joint<const HEAD: usize>(
    given: &[u64],
) -> Result<([u32; HEAD], [u32; JOINT_WORDS]), Difference> {
    let (head, joint) = given.split_at_checked(HEAD).ok_or(Difference::Unreadable)?;
    if joint.len() != SHORT_JOINT {
        return Err(Difference::Unreadable);
    }
    let mut words = [0u32; HEAD];
    put_words(head, &mut words)?;
    Ok((words, joint_words(joint)?))
}

// A printed figure, and what Work gives in its place.
#[derive(Clone, Copy)]
struct Cell {
    figure: Figure,
    worked: u64,
}

impl Cell {
    // Works the line's joint, and takes the number at the line's place, counted from 1.
    fn read(items: &mut Items, sides: &mut Sides) -> Result<Cell, Difference> {
        items.sides(sides)?;
        let ([_, count, printed, tolerance, place], joint) = head_and_joint::<5>(&sides.given)?;
        let numbers = worked_numbers(&built_in(), &joint);
        compare(&numbers[..SHORT_OUTCOME], &sides.answer)?;
        let worked = (place as usize)
            .checked_sub(1)
            .and_then(|place| numbers.get(place).copied())
            .ok_or(Difference::Unreadable)?;
        let figure = Figure {
            count,
            printed,
            tolerance,
        };
        Ok(Cell { figure, worked })
    }

    fn is_near(self) -> bool {
        self.figure.is_near(self.worked)
    }

    fn off_print(self) -> Difference {
        Difference::OffPrint {
            worked: self.worked,
            printed: self.figure.total(),
        }
    }
}

// A cell: what Work gives is near the printed figure.
pub fn run_cell(items: &mut Items, sides: &mut Sides) -> Result<(), Difference> {
    let cell = Cell::read(items, sides)?;
    hold(cell.is_near(), cell.off_print())
}

// An exception: what Work gives is known not to be near it. The two ask for a thing and its contrary, and share all else.
pub fn run_exception(items: &mut Items, sides: &mut Sides) -> Result<(), Difference> {
    let cell = Cell::read(items, sides)?;
    hold(!cell.is_near(), cell.off_print())
}

// The verdict on the bolts under a shear force.
fn bolts_under(joint: [u32; JOINT_WORDS], shear: u32) -> u64 {
    let mut loaded = joint;
    loaded[SHEAR] = shear;
    worked_numbers(&built_in(), &loaded)[BOLTS]
}

// The bolts' verdicts under the least and the greatest shear force that so many of a printed capacity stand for.
pub fn run_shear(items: &mut Items, sides: &mut Sides) -> Result<(), Difference> {
    items.sides(sides)?;
    let ([_, count, printed, tolerance], joint) = head_and_joint::<4>(&sides.given)?;
    let figure = Figure {
        count,
        printed,
        tolerance,
    };
    let (least, most) = figure.ends().ok_or(Difference::Unreadable)?;
    compare(
        &[bolts_under(joint, least), bolts_under(joint, most)],
        &sides.answer,
    )
}
