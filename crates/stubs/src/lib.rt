// Bending of T-stubs and tension in webs (rules 4.2 to 4.5, 4.7, 4.9 and 4.10), from figures that are the same for every group. Lengths are
// in hundredths of a millimetre. The crate `tension` calls these for figures that it shows to be small enough, and a stub's to go together.
#![tactic(auto)]

ghost use Rattle.std.specs.Prelude.{◌≡◌, ◌*◌, ◌/◌, min};
ghost use Rattle.arithmetic.specs.Range.{Within};
ghost use Rattle.stubs.specs.Bending.{extension_length};
ghost use Rattle.stubs.specs.Worked.{stub_of, lengths_of, length_by, bending_by, web_by};
ghost use Rattle.stubs.specs.InRange.{bolt_distances, edge_distances};
ghost use Rattle.stubs.specs.InRange.{StubParts, PatternParts, BendingParts, ExtensionParts, WebTensionParts};

// The column flange or the end plate as a T-stub: what of its bending is the same for every group.
#[derive(Clone, Copy)]
pub struct Stub {
    // t²y
    pub flexure: u64,
    // 100m
    pub yielding: u64,
    // 200n'W
    pub prying: u64,
    // 200(m + n')
    pub breaking: u64,
    // m + 2n'
    pub reach: u64,
    // 200n'Wm: of k rows mode 1 is at most mode 2 where L×t²y times the reach is at most k times this
    pub prying_moment: u64,
}

// The yield-line lengths of one row.
#[derive(Clone, Copy)]
pub struct Lengths {
    // 6283m÷1000
    pub circular: u64,
    // 4m + 5e÷4
    pub side: u64,
}

impl Stub {
    // The T-stub of a flange or plate, from m, the edge distance that n' is at most, thickness, strength and W.
    pub fn new(m: u64, edge: u64, thickness: u32, strength: u64, pair: u64) -> Stub
        requires { StubParts m edge thickness strength pair }
        ensures { result ≡ stub_of m (min edge (5 * m / 4)) thickness strength pair }
    {
        let effective = edge.min(5 * m / 4);
        let t = u64::from(thickness);
        let prying = 200 * effective * pair;
        Stub {
            flexure: t * t * strength,
            yielding: 100 * m,
            prying,
            breaking: 200 * (m + effective),
            reach: m + 2 * effective,
            prying_moment: prying * m,
        }
    }

    // The least of the three modes, for some rows and an effective length. Of modes 1 and 2, told apart by their cross products, the lesser
    // alone is divided.
    #[tactic(auto, unfolding(crate::specs::Worked::bending_by))]
    pub fn bending(self, pair: u64, rows: u64, length: u64) -> u64
        requires { BendingParts self pair rows length }
        ensures { result ≡ bending_by self pair rows length }
    {
        let flexure = length * self.flexure;
        let (moment, distance) = if flexure * self.reach <= rows * self.prying_moment {
            (flexure, self.yielding)
        } else {
            (flexure + rows * self.prying, self.breaking)
        };
        (moment / distance).min(rows * pair)
    }
}

impl Lengths {
    pub fn new(m: u64, edge: u64) -> Lengths
        requires { Within bolt_distances m × Within edge_distances edge }
        ensures { result ≡ lengths_of m edge }
    {
        Lengths {
            circular: 6283 * m / 1000,
            side: 4 * m + 5 * edge / 4,
        }
    }
}

// The smaller of two patterns for a group, with its rise.
pub fn effective_length(circular: u64, side: u64, rise: u64) -> u64
    requires { PatternParts circular side rise }
    ensures { result ≡ length_by circular side rise }
{
    (circular + 20 * rise).min(side + 10 * rise)
}

// The least of seven patterns about the extension row. Two are those of a row alone, but m is greater here than `Lengths` takes.
#[tactic(auto, unfolding(crate::specs::Bending::extension_length))]
pub fn extension_length(m: u64, edge: u32, plate_edge: u64, gauge: u32, width: u32) -> u64
    requires { ExtensionParts m edge plate_edge gauge width }
    ensures { result ≡ extension_length m edge plate_edge gauge width }
{
    let half_circle = 6283 * m / 2000;
    let end = 10 * u64::from(edge);
    let g = u64::from(gauge);
    let half_end = 2 * m + 5 * end / 8;
    (6283 * m / 1000)
        .min(half_circle + 10 * g)
        .min(half_circle + 2 * plate_edge)
        .min(4 * m + 5 * end / 4)
        .min(half_end + plate_edge)
        .min(half_end + 5 * g)
        .min(5 * u64::from(width))
}

// A web's tension: 173g, the rise, and the web's thickness times its strength.
pub fn web_tension(web_length: u64, rise: u64, web: u64) -> u64
    requires { WebTensionParts web_length rise web }
    ensures { result ≡ web_by web_length rise web }
{
    (web_length + 100 * rise) * web / 10000
}
