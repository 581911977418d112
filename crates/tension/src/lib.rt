// The tension side: the limit of every group of bolt rows (rules 4). Rows count from 0.
// Lengths are in hundredths of a millimetre. Work calls these for joints that refusals 10, 11 and 13 let pass. A usize converts by `as`:
// std has no From for it.
#![tactic(auto)]

ghost use Rattle.std.specs.Prelude.{◌≡◌, ℕ, ◌+◌, ◌-◌, ◌<◌, length, get_or, cond, eqb};
ghost use Rattle.tension.specs.Limits.{extension_bending, group_limit};
ghost use Rattle.tension.specs.Admissible.{Admissible, FiguresGiven, LimitsAsked, ExtensionFigures};
ghost use Rattle.tension.specs.Admissible.{FillAsked, RowAsked, FilledFrom, TableFilled};
ghost use Rattle.tension.specs.Dimensions.{column_by, plate_side_by, plate_by, web_for, webs_by, limit_by, limits_by, dimensions_of};
ghost use Rattle.tension.specs.InRange.{GroupInRange};

use joint::{Column, Face};
use spacing::Spacing;
use strength::SteelStrengths;
use stubs::{Lengths, Stub, effective_length, extension_length, web_tension};

// What is the same for all groups of a face.
#[derive(Clone, Copy)]
pub struct Dimensions {
    pub column: Stub,
    pub plate: Stub,
    pub column_lengths: Lengths,
    pub plate_lengths: Lengths,
    // alpha×m÷100, in the place of the plate's side yielding next to the beam flange
    pub near_flange: u64,
    // the extension row's plate limit; 0 if flush, where no row asks for it: an Option would have to be matched where it is there
    pub extension_limit: u64,
    // 173g: the length of web that a row alone pulls on
    pub web_length: u64,
    // tc×yc, and the lesser of it and tb×yb
    pub column_web: u64,
    pub lesser_web: u64,
    // W
    pub pair: u64,
    // the first row under the beam flange
    pub first: usize,
}

impl Dimensions {
    // What of the limits is the same for every group.
    fn new(
        column: &Column,
        face: &Face,
        spacing: Spacing,
        steel: SteelStrengths,
        pair: u64,
    ) -> Dimensions
        requires { Admissible column.now face.now × FiguresGiven column.now face.now spacing steel pair }
        ensures { result ≡ dimensions_of column.now face.now pair }
    {
        let edge = spacing.column_edge.min(spacing.plate_edge);
        let column_web = u64::from(column.web) * steel.column;
        let beam_web = u64::from(face.beam.web) * steel.beam;
        Dimensions {
            column: Stub::new(spacing.column, edge, column.flange, steel.column, pair),
            plate: Stub::new(spacing.plate, edge, face.plate.thickness, steel.plate, pair),
            column_lengths: Lengths::new(spacing.column, spacing.column_edge),
            plate_lengths: Lengths::new(spacing.plate, spacing.plate_edge),
            near_flange: u64::from(face.layout.alpha) * spacing.plate / 100,
            extension_limit: extension_limit(
                face,
                spacing.extension,
                spacing.plate_edge,
                steel.plate,
                pair,
            ),
            web_length: 173 * u64::from(face.layout.gauge),
            column_web,
            lesser_web: column_web.min(beam_web),
            pair,
            first: face.extended as usize,
        }
    }

    // The limits of the groups that begin at a row or below, row by row, at the front of a part of a table. It calls itself on the rest, as
    // its promise goes: the row's own part, and what is promised of the rest.
    fn fill_limits(&self, row: usize, levers: &[u32], table: &mut [u64])
        requires { FillAsked self.now levers.now row table.old }
        ensures { FilledFrom (length levers.now) (limits_by self.now levers.now) row table.old table.new }
    {
        if row < levers.len() {
            let (own, further) = table.split_at_mut(levers.len() - row);
            self.fill_row(row, &levers[row..], own);
            self.fill_limits(row + 1, levers, further);
        }
    }

    // The limits of the groups that begin at a row, from the shortest to the longest, by its lever and those below it: a rise is the first
    // less another, so both are asked by place.
    fn fill_row(&self, row: usize, levers: &[u32], limits: &mut [u64])
        requires { RowAsked self.now levers.now limits.old }
        ensures { (k : ℕ) → k < length levers.now
            → get_or limits.new k 0 ≡ limit_by self.now row (k + 1) (get_or levers.now 0 0 - get_or levers.now k 0) }
    {
        for (last, limit) in limits.iter_mut().enumerate() {
            let group = Group {
                dimensions: self,
                row,
                rows: last as u64 + 1,
                rise: u64::from(levers[0] - levers[last]),
            };
            *limit = group.limit();
        }
    }
}

// A group of a face's rows: the row that it begins at, how many rows it has, and its rise.
#[derive(Clone, Copy)]
struct Group<'a> {
    dimensions: &'a Dimensions,
    row: usize,
    rows: u64,
    rise: u64,
    ghost in_range: { GroupInRange dimensions.now rows rise },
}

impl<'a> Group<'a> {
    // The least of the limits that apply.
    #[tactic(auto, unfolding(crate::specs::Dimensions::limit_by))]
    fn limit(&self) -> u64
        ensures { result ≡ limit_by self.now.dimensions.now self.now.row self.now.rows self.now.rise }
    {
        self.with_webs(self.with_plate(self.column_limit()))
    }

    // The bending limit of the column flange.
    #[tactic(auto, unfolding(crate::specs::Dimensions::column_by))]
    fn column_limit(&self) -> u64
        ensures { result ≡ column_by self.now.dimensions.now self.now.rows self.now.rise }
    {
        let d = self.dimensions;
        let lengths = d.column_lengths;
        let length = effective_length(lengths.circular, lengths.side, self.rise);
        d.column.bending(d.pair, self.rows, length)
    }

    // A limit with the end plate's, where there is one.
    #[tactic(auto, unfolding(crate::specs::Dimensions::plate_by))]
    fn with_plate(&self, limit: u64) -> u64
        ensures { result ≡ plate_by self.now.dimensions.now self.now.row self.now.rows self.now.rise limit }
    {
        let d = self.dimensions;
        if self.row < d.first {
            if self.rows == 1 {
                return limit.min(d.extension_limit);
            }
            return limit;
        }
        let length = effective_length(d.plate_lengths.circular, self.plate_side(), self.rise);
        limit.min(d.plate.bending(d.pair, self.rows, length))
    }

    // The plate's side yielding, near the beam flange or elsewhere.
    fn plate_side(&self) -> u64
        ensures { result ≡ plate_side_by self.now.dimensions.now self.now.row }
    {
        if self.row == self.dimensions.first {
            self.dimensions.near_flange
        } else {
            self.dimensions.plate_lengths.side
        }
    }

    // A limit with the webs'. Where both limit, the lesser web's tension is the lesser.
    #[tactic(auto, unfolding(crate::specs::Dimensions::webs_by))]
    fn with_webs(&self, limit: u64) -> u64
        ensures { result ≡ webs_by self.now.dimensions.now self.now.row self.now.rise limit }
    {
        limit.min(web_tension(self.dimensions.web_length, self.rise, self.web()))
    }

    // The column's web, or the lesser of it and the beam's.
    fn web(&self) -> u64
        ensures { result ≡ web_for self.now.dimensions.now self.now.row }
    {
        if self.dimensions.first < self.row {
            self.dimensions.lesser_web
        } else {
            self.dimensions.column_web
        }
    }
}

// The limit of every group of a face's rows, put at the front of a lent table: groups 1–1, 1–2, .. 1–n, 2–2 and so on. Places past the
// last group stay as they are.
pub fn group_limits(
    column: &Column,
    face: &Face,
    spacing: Spacing,
    steel: SteelStrengths,
    pair: u64,
    table: &mut [u64; 36],
)
    requires { LimitsAsked column.now face.now spacing steel pair }
    ensures { TableFilled face.now.rows (group_limit column.now face.now pair) table.old table.new }
{
    let d = Dimensions::new(column, face, spacing, steel, pair);
    d.fill_limits(0, &face.levers[..face.rows as usize], table);
}

// The plate limit of the extension row alone, 0 if flush: from mx, the plate's e and its strength.
fn extension_limit(face: &Face, m: u64, plate_edge: u64, strength: u64, pair: u64) -> u64
    requires { ExtensionFigures face.now m plate_edge strength pair }
    ensures { result ≡ cond (eqb face.now.extended 0) 0 (extension_bending face.now pair) }
{
    let plate = face.plate;
    let layout = face.layout;
    if face.extended == 0 {
        return 0;
    }
    let end = 10 * u64::from(layout.edge);
    let stub = Stub::new(m, end, plate.thickness, strength, pair);
    let length = extension_length(m, layout.edge, plate_edge, layout.gauge, plate.width);
    stub.bending(pair, 1, length)
}
