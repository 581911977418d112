// A table of bolt sizes: it is loaded and checked, and stands in for the five built in. What Work has of it is the area of one
// diameter: everything after that goes by figures.
#![tactic(auto)]

ghost use Rattle.std.specs.Prelude.{◌≡◌, None};
ghost use Rattle.arithmetic.specs.Range.{within};
ghost use Rattle.bolttable.specs.Loading.{number_of, size_counts, size_in_range, check_meaning, table_check, loading_meaning, loaded, built_in};
ghost use Rattle.bolttable.specs.Area.{area_of};
ghost use Rattle.bolttable.specs.Steps.{Places, below_least, all_sizes, sizes_check, may_follow, area_passed};

// The places of a table.
pub const PLACES: usize = 12;

// One less than the least diameter.
const BELOW_LEAST: u32 = 5;

// A table of bolt sizes. Only the first `count` places are looked at. Two runs of places, as the words of a table lie in C: Work reads them
// where they are lent.
#[derive(Clone, Copy)]
pub struct BoltTable {
    // sizes; of a table that is taken 1 to 12
    pub count: u32,
    // δ, in millimetres; of a table that is taken rising
    pub diameters: [u32; PLACES],
    // A, the tensile stress area, in tenths of mm², at the place of its diameter
    pub areas: [u32; PLACES],
}

// Why a table is not taken, the first reason in the order of the rules.
#[derive(Clone, Copy, PartialEq, Eq, Debug)]
pub enum TableRefusal {
    // the count, or a number of a size that it counts
    OutOfRange = 16,
    DiametersDontRise = 17,
    AreaTooLarge = 18,
}

impl TableRefusal {
    pub fn number(self) -> u32
        ensures { result ≡ number_of self }
    {
        self as u32
    }
}

// The five sizes built in.
pub fn built_in() -> BoltTable
    ensures { result ≡ built_in }
{
    BoltTable {
        count: 5,
        diameters: [12, 16, 20, 24, 30, 0, 0, 0, 0, 0, 0, 0],
        areas: [843, 1570, 2450, 3530, 5610, 0, 0, 0, 0, 0, 0, 0],
    }
}

// Loads a table: it is then in force, or, where it isn't taken, the one before.
#[tactic(auto, unfolding(crate::specs::Loading::loaded))]
pub fn load(in_force: &mut BoltTable, table: &BoltTable) -> Result<(), TableRefusal>
    ensures { loading_meaning result in_force.new ≡ loaded in_force.old table.now }
{
    table.lent().check()?;
    *in_force = *table;
    Ok(())
}

// The area that a table lists for a diameter, in tenths of mm².
pub fn area_of(table: &BoltTable, diameter: u32) -> Option<u32>
    ensures { result ≡ area_of table.now diameter }
{
    table.lent().area_of(diameter)
}

impl BoltTable {
    ghost use Rattle.bolttable.specs.Lent.{table_of};

    // The table with its places lent.
    pub fn lent(&self) -> LentTable<'_>
        ensures { table_of result ≡ self.now }
    {
        LentTable {
            count: self.count,
            diameters: &self.diameters,
            areas: &self.areas,
        }
    }
}

// A table whose places are lent, as those of the words of a table: nothing is copied to check it or to search it.
#[derive(Clone, Copy)]
pub struct LentTable<'a> {
    pub count: u32,
    pub diameters: &'a [u32],
    pub areas: &'a [u32],
    pub ghost places: { Places diameters.now areas.now },
}

impl LentTable<'_> {
    ghost use Rattle.bolttable.specs.Lent.{table_of};

    // The area that the table lists for a diameter, in tenths of mm².
    pub fn area_of(self, diameter: u32) -> Option<u32>
        ensures { result ≡ area_of (table_of self.entry) diameter }
    {
        if !is_size_count(self.count) {
            return None;
        }
        let count = self.count as usize;
        area_among(&self.diameters[..count], &self.areas[..count], diameter)
    }

    // Whether the table is taken, or why it isn't.
    pub fn check(self) -> Result<(), TableRefusal>
        ensures { check_meaning result ≡ table_check (table_of self.entry) }
    {
        if !is_size_count(self.count) {
            return Err(TableRefusal::OutOfRange);
        }
        let counted = self.count as usize;
        check_sizes(&self.diameters[..counted], &self.areas[..counted])
    }
}

// The area of the size with the diameter. Work asks for it each time, so the sizes are tested and searched in one pass, which doesn't tell
// by which number a table is refused.
fn area_among(diameters: &[u32], areas: &[u32], diameter: u32) -> Option<u32>
    ensures { result ≡ area_passed diameter below_least None (all_sizes diameters.now areas.now) }
{
    let mut found = None;
    let mut last = BELOW_LEAST;
    for (&next, &area) in diameters.iter().zip(areas) {
        if !may_follow(last, next, area) {
            return None;
        }
        if diameter == next {
            found = Some(area);
        }
        last = next;
    }
    found
}

// Whether a size may come after one with the diameter `last`, or after none. That a diameter is 6 or more and an area at most 40000 needs no
// test: it is above `last`, which is 5 or more, and the greatest area of any diameter is 32153.
fn may_follow(last: u32, diameter: u32, area: u32) -> bool
    ensures { result ≡ may_follow last (record { diameter = diameter; area = area }) }
{
    if !((last < diameter) & (diameter <= 64)) {
        return false;
    }
    let across = u64::from(diameter);
    (1 <= area) & (100 * u64::from(area) <= 785 * across * across)
}

fn is_size_count(count: u32) -> bool
    ensures { result ≡ within size_counts count }
{
    (1..=PLACES as u32).contains(&count)
}

// That a number is out of range comes first over all sizes, so it decides there and then. Whether diameters rise and areas fit is told
// after the last size.
fn check_sizes(diameters: &[u32], areas: &[u32]) -> Result<(), TableRefusal>
    ensures { check_meaning result ≡ sizes_check (all_sizes diameters.now areas.now) }
{
    let mut rise = true;
    let mut fit = true;
    let mut last = BELOW_LEAST;
    for (&diameter, &area) in diameters.iter().zip(areas) {
        if !is_in_range(diameter, area) {
            return Err(TableRefusal::OutOfRange);
        }
        rise &= last < diameter;
        fit &= area <= 785 * diameter * diameter / 100;
        last = diameter;
    }
    if !rise {
        return Err(TableRefusal::DiametersDontRise);
    }
    if !fit {
        return Err(TableRefusal::AreaTooLarge);
    }
    Ok(())
}

fn is_in_range(diameter: u32, area: u32) -> bool
    ensures { result ≡ size_in_range (record { diameter = diameter; area = area }) }
{
    (6..=64).contains(&diameter) & (1..=40000).contains(&area)
}
