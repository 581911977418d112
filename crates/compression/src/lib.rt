// The compression side of a joint: its four resistances in newtons.
#![tactic(auto)]

ghost use Rattle.std.specs.Prelude.{◌≡◌, ◌<◌, ◌^◌};
ghost use Rattle.arithmetic.specs.Range.{Within};
ghost use Rattle.joint.specs.InRange.{ColumnInRange, BeamInRange};
ghost use Rattle.strength.specs.InRange.{yield_strengths};
ghost use Rattle.compression.specs.Compression.{bearing_length, beam_flange, web_bearing, web_buckling};
ghost use Rattle.compression.specs.Compression.{reduced_near_end, panel_shear, resistances_of};
ghost use Rattle.compression.specs.InRange.{PartsInRange, LengthParts, ColumnWebParts};

mod root;

use joint::{Beam, Column, Plate, Welds};
use strength::SteelStrengths;

// The four resistances of the compression side, in newtons.
#[derive(Clone, Copy)]
pub struct Resistances {
    // beam flange
    pub flange: u64,
    // web bearing
    pub bearing: u64,
    // web buckling
    pub buckling: u64,
    // panel shear
    pub panel: u64,
}

// Work calls it for a joint whose fields are in range.
#[tactic(auto, unfolding(crate::specs::Compression::resistances_of))]
pub fn resistances_of(
    steel: SteelStrengths,
    column: Column,
    beam: Beam,
    plate: Plate,
    welds: Welds,
) -> Resistances
    requires { PartsInRange steel column beam plate welds }
    ensures { result ≡ resistances_of steel column beam plate welds }
{
    let b = bearing_length(column, beam, plate, welds);
    let unreduced = web_buckling(b, steel.column, column);
    Resistances {
        flange: beam_flange(steel.beam, beam),
        bearing: web_bearing(b, steel.column, column),
        buckling: reduced_near_end(unreduced, column),
        panel: panel_shear(steel.column, column),
    }
}

// b, in tenths of a millimetre.
#[tactic(auto, unfolding(crate::specs::Compression::bearing_length))]
fn bearing_length(column: Column, beam: Beam, plate: Plate, welds: Welds) -> u64
    requires { LengthParts column beam plate welds }
    ensures { result ≡ bearing_length column beam plate welds }
{
    let b = beam.flange
        + 2 * welds.flange
        + 2 * plate.thickness
        + 5 * (column.flange + column.radius);
    u64::from(b)
}

#[tactic(auto, unfolding(crate::specs::Compression::beam_flange))]
fn beam_flange(strength: u64, beam: Beam) -> u64
    requires { Within yield_strengths strength × BeamInRange beam }
    ensures { result ≡ beam_flange strength beam }
{
    7 * strength * u64::from(beam.flange) * u64::from(beam.width) / 500
}

#[tactic(auto, unfolding(crate::specs::Compression::web_bearing))]
fn web_bearing(length: u64, strength: u64, column: Column) -> u64
    requires { ColumnWebParts length strength column }
    ensures { result ≡ web_bearing length strength column }
{
    length * u64::from(column.web) * strength / 100
}

// The root of the limit over 16×dc: its square times 16×dc is at most the limit, and no greater one's is.
fn web_buckling(length: u64, strength: u64, column: Column) -> u64
    requires { ColumnWebParts length strength column }
    ensures { result ≡ web_buckling length strength column }
{
    let web = u64::from(column.web);
    let squared = web * web;
    let limit = 275 * length * strength * squared * squared;
    root::square_root(limit / (16 * u64::from(column.clear))).unwrap_or(0)
}

// A buckling force, reduced near an end of the column. z and 0.7×dc are compared ten times as large, so that neither is rounded.
#[tactic(auto, unfolding(crate::specs::Compression::reduced_near_end))]
fn reduced_near_end(force: u64, column: Column) -> u64
    requires { (force < 2 ^ 32) × ColumnInRange column }
    ensures { result ≡ reduced_near_end force column }
{
    let clear = u64::from(column.clear);
    let distance = u64::from(column.end_distance);
    if 10 * distance < 7 * clear {
        return force * (10 * distance + 7 * clear) / (14 * clear);
    }
    force
}

// Work asks it for the panel of a column with two beams too.
#[tactic(auto, unfolding(crate::specs::Compression::panel_shear))]
pub fn panel_shear(strength: u64, column: Column) -> u64
    requires { Within yield_strengths strength × ColumnInRange column }
    ensures { result ≡ panel_shear strength column }
{
    3 * strength * u64::from(column.web) * u64::from(column.depth) / 500
}
