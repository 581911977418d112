// What Work's refusals 11, 19, 12 and 13 ask of a face: levers that fall and rows far enough apart, both by the least pitch; rows in
// place; and bolts far enough from web, weld and edge. Rows count from 0. Work calls these for faces whose fields are in range.
#![tactic(auto)]

ghost use Rattle.std.specs.Prelude.{◌≡◌, ℕ, leb, length};
ghost use Rattle.arithmetic.specs.Range.{Within, ◌to◌};
ghost use Rattle.arithmetic.specs.Table.{every};
ghost use Rattle.joint.specs.Ranges.{most_lever};
ghost use Rattle.refusals.specs.Refusals.{fall_by, in_place, rows_in_place, too_tight};
ghost use Rattle.refusals.specs.Steps.{PlacesInRange};

use joint::Face;
use spacing::Spacing;

// The least pitch of the rows: how far a lever is below the one above it, 0 where one isn't below. It tells of every distance from 1 to
// the greatest lever whether the levers fall by it. One row or none has no pitch, and answers the greatest lever.
#[tactic(auto, using(crate::proofs::Rows::all_pairs, crate::proofs::Rows::next_pair, crate::proofs::Rows::no_pair))]
pub fn least_pitch(levers: &[u32]) -> u64
    ensures { (distance : ℕ) → Within (1 to most_lever) distance
        → fall_by distance (length levers.now) levers.now ≡ leb distance result }
{
    let mut pitch: u32 = 20000;
    for pair in levers.windows(2) {
        pitch = pitch.min(pair[0].saturating_sub(pair[1]));
    }
    u64::from(pitch)
}

// Extended row 1 stands over the beam, every other row under its flange.
#[tactic(auto, unfolding(crate::specs::Refusals::rows_in_place))]
pub fn rows_in_place(face: &Face) -> bool
    requires { PlacesInRange face.now }
    ensures { result ≡ rows_in_place face.now }
{
    let depth = face.beam.depth;
    let flange = face.beam.flange;
    all_in_place(
        &face.levers[..face.rows as usize],
        face.extended as usize,
        2 * depth - flange,
        2 * depth - 3 * flange,
    )
}

// Over the one bound above the first row under the flange, under the other from there on.
fn all_in_place(levers: &[u32], first: usize, over: u32, under: u32) -> bool
    ensures { result ≡ every (in_place first over under) 0 levers.now }
{
    levers.iter().enumerate().all(|(row, lever)| is_in_place(row, first, over, under, *lever))
}

// In 64 bits twice a lever fits, whatever the lever.
fn is_in_place(row: usize, first: usize, over: u32, under: u32, lever: u32) -> bool
    ensures { result ≡ in_place first over under row lever }
{
    let twice = 2 * u64::from(lever);
    if row < first {
        u64::from(over) < twice
    } else {
        twice < u64::from(under)
    }
}

#[tactic(auto, unfolding(crate::specs::Refusals::too_tight))]
pub fn too_tight(extended: u32, spacing: Spacing) -> bool
    ensures { result ≡ too_tight extended spacing }
{
    (spacing.column < 500)
        | ((spacing.plate < 500)
            | (((extended == 1) & (spacing.extension < 500))
                | ((spacing.column_edge < 1000) | (spacing.plate_edge < 1000))))
}
