// Allocate: limits of row groups become row forces (rules 6 and 10).
// Rows count from 0 here, from 1 in the rules.
#![tactic(auto)]

ghost use Rattle.std.specs.Prelude.{◌≡◌, take, IfOk};
ghost use Rattle.sharing.specs.Groups.{listed, most_limit};
ghost use Rattle.sharing.specs.Best.{Best};
ghost use Rattle.allocation.specs.Allocation.{none_above, allocated};
ghost use Rattle.allocation.specs.Answers.{number_of, allocation_meaning};
ghost use Rattle.allocation.specs.Steps.{Shareable, triangle_of, TriangleFits, AddedAsked, added_on, places_shared, own_table, Countable, Counted};

// No limit above this is taken: refusal 8.
const MOST: u64 = 4_000_000_000;

// What a list of limits is refused for.
#[derive(Clone, Copy, PartialEq, Eq, Debug)]
pub enum LimitsRefusal {
    // more than eight rows
    RowCount = 3,
    // fewer than the groups
    TooFewLimits = 7,
    LimitTooLarge = 8,
}

impl LimitsRefusal {
    pub fn number(self) -> u32
        ensures { result ≡ number_of self }
    {
        self as u32
    }
}

// The forces of `count` bolt rows under the limits of their groups, in newtons: groups 1–1, 1–2, .. 1–n, 2–2 and so on. Row 1's force is
// first, and past the last row they are 0.
#[tactic(auto, using(crate::proofs::Answers::refused_by_3, crate::proofs::Answers::refused_by_7, crate::proofs::Answers::refused_by_8, crate::proofs::Answers::shareable), unfolding(sharing::specs::Groups::group_count))]
pub fn allocate(count: usize, limits: &[u64]) -> Result<[u64; 8], LimitsRefusal>
    ensures equals { allocation_meaning result ≡ allocated count limits.now }
    ensures best { IfOk result (λ forces. Best (listed count limits.now) count (take count forces)) }
{
    if !joint::is_row_count(count) {
        return Err(LimitsRefusal::RowCount);
    }
    let groups = count * (count + 1) / 2;
    if limits.len() < groups {
        return Err(LimitsRefusal::TooFewLimits);
    }
    if !none_above_most(&limits[..groups]) {
        return Err(LimitsRefusal::LimitTooLarge);
    }
    Ok(share(count, limits, None))
}

// No limit is above the most that is taken. A bitwise or is at least each number in it: where that isn't above the most, none is. It never
// stops early, so that the compiler takes several limits at once. Only where it is above are they asked one by one.
fn none_above_most(limits: &[u64]) -> bool
    ensures { result ≡ none_above most_limit limits.now }
{
    let bits = limits.iter().fold(0, |bits, limit| bits | *limit);
    bits <= MOST || limits.iter().all(|limit| *limit <= MOST)
}

// P207's triangle: each row below the reference row gets no more than the reference row's force, by the ratio of their levers.
#[derive(Clone, Copy)]
pub struct LentTriangle<'a> {
    // one for each row
    pub levers: &'a [u32],
    pub reference: usize,
}

// The sharing itself, in a triangle or without. Open for Work, which has shown that there is a limit for each group and none too large, and
// of a triangle a lever for each row, of which the reference row's isn't 0. Without a triangle each count is handed on as a constant: the
// compiler writes out loops whose counts it knows. Inlined, so that Allocate has nothing of a triangle.
#[inline(always)]
pub fn share(count: usize, limits: &[u64], triangle: Option<LentTriangle>) -> [u64; 8]
    requires { Shareable count limits.now × TriangleFits (triangle_of triangle) count }
    ensures { result ≡ places_shared (triangle_of triangle.entry) count limits.now }
{
    if triangle.is_some() {
        return share_rows(count, limits, triangle);
    }
    match count {
        0 => share_rows(0, limits, None),
        1 => share_rows(1, limits, None),
        2 => share_rows(2, limits, None),
        3 => share_rows(3, limits, None),
        4 => share_rows(4, limits, None),
        5 => share_rows(5, limits, None),
        6 => share_rows(6, limits, None),
        7 => share_rows(7, limits, None),
        _ => share_rows(8, limits, None),
    }
}

// The same, row by row. A sum begins above any that the limits allow. By index: what the triangle adds on a row is asked of the forces above
// it. Inlined, so that each constant count has code of its own.
#[inline(always)]
fn share_rows(count: usize, limits: &[u64], triangle: Option<LentTriangle>) -> [u64; 8]
    requires { Shareable count limits.now × TriangleFits (triangle_of triangle) count }
    ensures { result ≡ places_shared (triangle_of triangle.entry) count limits.now }
{
    let mut forces = [0u64; 8];
    let mut sums = [u64::MAX; 8];
    let mut above = 0;
    let mut rest = limits;
    for row in 0..count {
        let (own, further) = rest.split_at(count - row);
        count_groups(&mut sums, own, row, count, above);
        let sum = match added_on(triangle, &forces, row) {
            Some(added) => sums[row].min(above + added),
            None => sums[row],
        };
        forces[row] = sum - above;
        above = sum;
        rest = further;
    }
    forces
}

// The limit that the triangle adds on a row, by the forces of those above it; none where it adds none.
fn added_on(triangle: Option<LentTriangle>, forces: &[u64; 8], row: usize) -> Option<u64>
    requires { AddedAsked (triangle_of triangle) forces.now row }
    ensures { result ≡ added_on (triangle_of triangle.entry) forces.now row }
{
    let LentTriangle { levers, reference } = triangle?;
    if row <= reference {
        return None;
    }
    Some(forces[reference] * u64::from(levers[row]) / u64::from(levers[reference]))
}

// Counts the groups that begin at `row` into the sums from the top. From the longest group to the shortest, so that each limit is lowered
// by the last. By index: a part of the sums, with zip and rev, was slower in a loop (docs/DESIGN-PASS.md).
fn count_groups(sums: &mut [u64; 8], limits: &[u64], row: usize, count: usize, above: u64)
    requires { Countable limits.now row count above }
    ensures { Counted (own_table limits.now row) count row above row sums.old sums.new }
{
    let mut lowered = u64::MAX;
    for last in (row..count).rev() {
        lowered = lowered.min(limits[last - row]);
        sums[last] = sums[last].min(above + lowered);
    }
}
