// Verdicts on a joint's row forces: bending, bolts, flange weld and web weld (rules 8).
// Work calls these for joints whose fields are in range.
#![tactic(auto)]

ghost use Rattle.std.specs.Prelude.{◌≡◌, ℕ, ◌+◌, ◌*◌, ◌/◌, ◌≤◌, min, leb, get_or};
ghost use Rattle.arithmetic.specs.Range.{Within};
ghost use Rattle.joint.specs.InRange.{BeamInRange, FaceInRange};
ghost use Rattle.strength.specs.Steel.{weld_strength};
ghost use Rattle.strength.specs.InRange.{yield_strengths};
ghost use Rattle.sharing.specs.Groups.{most_limit};
ghost use Rattle.verdicts.specs.Bending.{carries};
ghost use Rattle.verdicts.specs.Bolts.{bearing, idle_pair, pulling_pair};
ghost use Rattle.verdicts.specs.Welds.{flange_weld_by, web_weld_passes, top_rows};
ghost use Rattle.verdicts.specs.Tally.{tally_of};
ghost use Rattle.verdicts.specs.Asked.{most_moment, TallyAsked, BendingAsked, BearingAsked, PairAsked, PairsAsked, BoltsAsked};
ghost use Rattle.verdicts.specs.Asked.{WeldAsked, FlangeWeldAsked};

use joint::{Beam, Column, Face, Loads, Plate};
use strength::BoltStrengths;

// What row forces come to.
#[derive(Clone, Copy)]
pub struct Tally {
    // newtons
    pub sum: u64,
    // Z, newtons times tenths of a millimetre
    pub moment: u64,
    // rows with a force
    pub pulling: u64,
}

// The rows' levers and their forces, as many of each.
pub fn tally_forces(levers: &[u32], forces: &[u64]) -> Tally
    requires { TallyAsked levers.now forces.now }
    ensures { (result ≡ tally_of levers.now forces.now) × (result.moment ≤ most_moment) }
{
    let mut sum = 0;
    let mut moment = 0;
    let mut pulling = 0;
    for (force, lever) in forces.iter().zip(levers) {
        sum += *force;
        moment += *force * u64::from(*lever);
        pulling += u64::from(*force != 0);
    }
    Tally {
        sum,
        moment,
        pulling,
    }
}

// Bending, in whole numbers with a sign: a tension adds to what is asked.
pub fn carries_moment(loads: Loads, beam: Beam, moment: u64) -> bool
    requires { BendingAsked loads beam moment }
    ensures { result ≡ carries loads beam moment }
{
    let arm = i64::from(beam.depth - beam.flange);
    let asked = 20000 * i64::from(loads.moment) - i64::from(loads.axial) * arm;
    asked <= 2 * moment.cast_signed()
}

// A pair of bolts bearing on a plate or a flange.
fn pair_bearing(diameter: u64, thickness: u32, strength: u64) -> u64
    requires { BearingAsked diameter thickness strength }
    ensures { result ≡ diameter * thickness * strength / 5 }
{
    diameter * u64::from(thickness) * strength / 5
}

// The lesser bearing of a pair, on the plate and on the column flange.
#[tactic(auto, unfolding(crate::specs::Bolts::bearing))]
fn bearing_of(bolt: BoltStrengths, column: Column, plate: Plate) -> u64
    requires { PairAsked bolt column plate }
    ensures { result ≡ bearing bolt column plate }
{
    let plate_strength = bolt.bearing.min(strength::steel_bearing(plate.grade));
    let column_strength = bolt.bearing.min(strength::steel_bearing(column.grade));
    let on_plate = pair_bearing(bolt.diameter, plate.thickness, plate_strength);
    let on_column = pair_bearing(bolt.diameter, column.flange, column_strength);
    on_plate.min(on_column)
}

// What pairs in rows with a force and pairs in rows without one count together.
fn pairs_total(pulling: u64, idle: u64, shear: u64, bearing: u64) -> u64
    requires { PairsAsked pulling idle shear }
    ensures { result ≡ pulling * min (2 * shear / 5) bearing + idle * min shear bearing }
{
    pulling * (2 * shear / 5).min(bearing) + idle * shear.min(bearing)
}

// Bolts: rows with a force, and rows without one, shear rows among them.
#[tactic(auto, unfolding(crate::specs::Bolts::idle_pair, crate::specs::Bolts::pulling_pair))]
pub fn bolts_carry(
    bolt: BoltStrengths,
    column: Column,
    plate: Plate,
    pulling: u64,
    idle: u64,
    shear: u32,
) -> bool
    requires { BoltsAsked bolt column plate pulling idle }
    ensures { result ≡ leb shear (pulling * pulling_pair bolt column plate + idle * idle_pair bolt column plate) }
{
    let bearing = bearing_of(bolt, column, plate);
    u64::from(shear) <= pairs_total(pulling, idle, bolt.pair_shear, bearing)
}

// The sum of the first three rows, two if flush; places past the last row are 0. By place: std's sum over a part is slower.
#[tactic(auto, unfolding(crate::specs::Welds::top_rows))]
pub fn top_rows(extended: u32, forces: [u64; 8]) -> u64
    requires { (k : ℕ) → get_or forces k 0 ≤ most_limit }
    ensures { result ≡ top_rows extended forces }
{
    let two = forces[0] + forces[1];
    if extended == 0 { two } else { two + forces[2] }
}

// What a weld of a leg and a length carries.
fn weld_capacity(leg: u32, length: u32, strength: u64) -> u64
    requires { WeldAsked leg length strength }
    ensures { result ≡ 14 * leg * length * strength / 1000 }
{
    14 * u64::from(leg) * u64::from(length) * strength / 1000
}

// Flange weld, from yb, pw and the sum of the top rows.
#[tactic(auto, unfolding(crate::specs::Welds::flange_weld_by))]
pub fn flange_weld(face: &Face, beam_strength: u64, weld_strength: u64, top: u64) -> bool
    requires { FlangeWeldAsked face.now beam_strength weld_strength }
    ensures { result ≡ flange_weld_by face.now top }
{
    let beam = face.beam;
    let leg = face.welds.flange;
    if 10 * beam.flange <= 14 * leg {
        return true;
    }
    let flange = flange_capacity(beam_strength, beam);
    flange.min(top) <= weld_capacity(leg, beam.width, weld_strength)
}

// What the beam's tension flange carries.
fn flange_capacity(strength: u64, beam: Beam) -> u64
    requires { Within yield_strengths strength × BeamInRange beam }
    ensures { result ≡ strength * beam.flange * beam.width / 100 }
{
    strength * u64::from(beam.flange) * u64::from(beam.width) / 100
}

// Web weld, from pw.
#[tactic(auto, unfolding(crate::specs::Welds::web_weld_passes))]
pub fn web_weld(face: &Face, strength: u64) -> bool
    requires { FaceInRange face.now × (strength ≡ weld_strength face.now.beam.grade face.now.plate.grade) }
    ensures { result ≡ web_weld_passes face.now }
{
    u64::from(face.loads.shear) <= weld_capacity(face.welds.web, face.welds.length, strength)
}
