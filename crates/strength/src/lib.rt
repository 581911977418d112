// Strengths of BS 5950-1:2000 in newtons per square millimetre: steel, bolts and welds. What is in none of the tables of rules 3 has
// strength 0; of welds any two grades have one, 220 if either is 275, else 250.
#![tactic(auto)]

ghost use Rattle.std.specs.Prelude.{◌≡◌, [], ◌∷◌, ◌≤◌};
ghost use Rattle.arithmetic.specs.Range.{Within};
ghost use Rattle.arithmetic.specs.Table.{up_to};
ghost use Rattle.bolttable.specs.Loading.{bolt_diameters};
ghost use Rattle.strength.specs.Steel.{steel_strength, steel_strengths, steel_bearing, weld_strength, bands};
ghost use Rattle.strength.specs.Bolt.{class_strengths, bolt_strengths};
ghost use Rattle.strength.specs.Thickness.{thickness_limit, too_thick, both_too_thick};
ghost use Rattle.strength.specs.InRange.{yield_strengths, ultimate_strengths, most_thickness, ThicknessInRange};

use joint::{Beam, Bolts, Column, Plate};

// yc, yb and yp.
#[derive(Clone, Copy)]
pub struct SteelStrengths {
    pub column: u64,
    pub beam: u64,
    pub plate: u64,
}

// What a bolt class gives: pt, ps, bearing and U.
#[derive(Clone, Copy)]
pub struct ClassStrengths {
    pub tension: u64,
    pub shear: u64,
    pub bearing: u64,
    pub ultimate: u64,
}

// All that limits and verdicts need of a joint's bolts.
#[derive(Clone, Copy)]
pub struct BoltStrengths {
    // δ, in millimetres
    pub diameter: u64,
    // W, in newtons
    pub pair_tension: u64,
    // S, in newtons
    pub pair_shear: u64,
    pub bearing: u64,
    // U
    pub ultimate: u64,
}

pub fn steel_strengths(column: Column, beam: Beam, plate: Plate) -> SteelStrengths
    ensures { result ≡ steel_strengths column beam plate }
{
    SteelStrengths {
        column: steel_strength(column.grade, column.flange),
        beam: steel_strength(beam.grade, beam.flange),
        plate: steel_strength(plate.grade, plate.thickness),
    }
}

// Table 9, thickness in tenths of a millimetre.
#[tactic(auto, unfolding(crate::specs::Steel::steel_strength))]
pub fn steel_strength(grade: u32, thickness: u32) -> u64
    ensures { result ≡ steel_strength grade thickness }
{
    match grade {
        275 => by_thickness(thickness, 275, 265, 255),
        355 => by_thickness(thickness, 355, 345, 335),
        _ => 0,
    }
}

fn by_thickness(thickness: u32, thin: u64, medium: u64, thick: u64) -> u64
    ensures { result ≡ up_to bands (thin ∷ medium ∷ thick ∷ []) thickness }
{
    if thickness <= 160 {
        thin
    } else if thickness <= 400 {
        medium
    } else if thickness <= 630 {
        thick
    } else {
        0
    }
}

#[tactic(auto, unfolding(crate::specs::Steel::steel_bearing))]
pub fn steel_bearing(grade: u32) -> u64
    ensures { result ≡ steel_bearing grade }
{
    match grade {
        275 => 460,
        355 => 550,
        _ => 0,
    }
}

#[tactic(auto, unfolding(crate::specs::Steel::weld_strength))]
pub fn weld_strength(beam_grade: u32, plate_grade: u32) -> u64
    ensures { result ≡ weld_strength beam_grade plate_grade }
{
    if beam_grade == 275 || plate_grade == 275 {
        220
    } else {
        250
    }
}

// The area is in tenths of mm².
#[tactic(auto, unfolding(crate::specs::Bolt::pair_tension, crate::specs::Bolt::pair_shear))]
pub fn bolt_strengths(bolts: Bolts, area: u32) -> BoltStrengths
    ensures { result ≡ bolt_strengths bolts area }
{
    let pair = 2 * u64::from(area);
    let class = class_strengths(bolts.class);
    BoltStrengths {
        diameter: u64::from(bolts.diameter),
        pair_tension: pair * class.tension / 10,
        pair_shear: pair * class.shear / 10,
        bearing: class.bearing,
        ultimate: class.ultimate,
    }
}

#[tactic(auto, unfolding(crate::specs::Bolt::bolt_tension, crate::specs::Bolt::bolt_shear, crate::specs::Bolt::bolt_bearing, crate::specs::Bolt::bolt_ultimate))]
fn class_strengths(class: u32) -> ClassStrengths
    ensures { result ≡ class_strengths class }
{
    match class {
        46 => ClassStrengths {
            tension: 240,
            shear: 160,
            bearing: 460,
            ultimate: 400,
        },
        88 => ClassStrengths {
            tension: 560,
            shear: 375,
            bearing: 1000,
            ultimate: 800,
        },
        109 => ClassStrengths {
            tension: 700,
            shear: 400,
            bearing: 1300,
            ultimate: 1000,
        },
        _ => ClassStrengths {
            tension: 0,
            shear: 0,
            bearing: 0,
            ultimate: 0,
        },
    }
}

// Whether flange and plate are both too thick for the bolts: the rows then go by the triangle. Work calls it for a joint whose fields are
// in range.
#[tactic(auto, unfolding(crate::specs::Thickness::both_too_thick))]
pub fn both_too_thick(
    column: Column,
    plate: Plate,
    steel: SteelStrengths,
    bolt: BoltStrengths,
) -> bool
    requires { ThicknessInRange column plate steel bolt }
    ensures { result ≡ both_too_thick column plate steel bolt }
{
    let limit = thickness_limit(bolt.diameter, bolt.ultimate);
    too_thick(column.flange, steel.column, limit) && too_thick(plate.thickness, steel.plate, limit)
}

#[tactic(auto, unfolding(crate::specs::Thickness::thickness_limit))]
fn thickness_limit(diameter: u64, ultimate: u64) -> u64
    requires { Within bolt_diameters diameter × Within ultimate_strengths ultimate }
    ensures { result ≡ thickness_limit diameter ultimate }
{
    10000 * diameter * diameter * ultimate
}

#[tactic(auto, unfolding(crate::specs::Thickness::too_thick))]
fn too_thick(thickness: u32, strength: u64, limit: u64) -> bool
    requires { (thickness ≤ most_thickness) × Within yield_strengths strength }
    ensures { result ≡ too_thick thickness strength limit }
{
    let t = u64::from(thickness);
    limit < 361 * t * t * strength
}
