// Distances about the bolts, in hundredths of a millimetre (rule 4.1).
#![tactic(auto)]

ghost use Rattle.std.specs.Prelude.{◌≡◌, ◌+◌, ◌-◌, ◌*◌};
ghost use Rattle.spacing.specs.Spacing.{spacing_of};

use joint::{Column, Face};

// A difference below 0 is 0 here: refusal 13 turns a joint down for either.
#[derive(Clone, Copy)]
pub struct Spacing {
    // column m
    pub column: u64,
    // plate m
    pub plate: u64,
    // column e
    pub column_edge: u64,
    // plate e
    pub plate_edge: u64,
    // mx, of an extended plate
    pub extension: u64,
}

pub fn spacing_of(column: Column, face: Face) -> Spacing
    ensures { result ≡ spacing_of column face }
{
    let gauge = face.layout.gauge;
    Spacing {
        column: bolt_distance(gauge, column.web, column.radius),
        plate: bolt_distance(gauge, face.beam.web, face.welds.web),
        column_edge: edge_distance(column.width, gauge),
        plate_edge: edge_distance(face.plate.width, gauge),
        extension: extension_distance(
            face.levers[0],
            face.beam.flange,
            face.beam.depth,
            face.welds.flange,
        ),
    }
}

// m, from a bolt to the root or the weld at the web.
fn bolt_distance(gauge: u32, web: u32, fillet: u32) -> u64
    ensures { result ≡ 5 * (gauge - web) - 8 * fillet }
{
    (5 * u64::from(gauge)).saturating_sub(5 * u64::from(web) + 8 * u64::from(fillet))
}

// e, from a bolt to the edge.
fn edge_distance(width: u32, gauge: u32) -> u64
    ensures { result ≡ 5 * (width - gauge) }
{
    (5 * u64::from(width)).saturating_sub(5 * u64::from(gauge))
}

// mx, from the extension row to the weld on the beam flange.
fn extension_distance(lever: u32, flange: u32, depth: u32, weld: u32) -> u64
    ensures { result ≡ 5 * (2 * lever + flange - 2 * depth) - 8 * weld }
{
    let above = 10 * u64::from(lever) + 5 * u64::from(flange);
    above.saturating_sub(10 * u64::from(depth) + 8 * u64::from(weld))
}
