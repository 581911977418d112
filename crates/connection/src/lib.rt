// One face of the column worked whole (rules 11): the refusals in their order, then limits, compression, cap, row forces and
// verdicts. Rows count from 0.
#![tactic(auto)]

ghost use Rattle.std.specs.Prelude.{◌≡◌, Bool, ℕ, ◌≤◌, get_or, take, IfOk, OnOk};
ghost use Rattle.arithmetic.specs.Checks.{first_failing, checks_before};
ghost use Rattle.bolttable.specs.InRange.{AreaInRange};
ghost use Rattle.joint.specs.InRange.{ColumnInRange, FaceInRange};
ghost use Rattle.compression.specs.InRange.{most_bearing};
ghost use Rattle.governing.specs.Governing.{force_of};
ghost use Rattle.outcome.specs.Outcome.{FaceOutcome, face_meaning};
ghost use Rattle.sharing.specs.Groups.{most_limit};
ghost use Rattle.allocation.specs.Steps.{triangle_of};
ghost use Rattle.strength.specs.InRange.{BoltInRange};
ghost use Rattle.tension.specs.Admissible.{Admissible};
ghost use Rattle.connection.specs.OneFace.{rows_of, triangle_on, governing_of, verdicts_of};
ghost use Rattle.connection.specs.Connection.{refused_after_10, refusals_after_10, result_of, worked_face, worked_connection};
ghost use Rattle.connection.specs.Demand.{Demand3For};
ghost use Rattle.connection.specs.Steps.{AtWork, FaceCap, Tallied, admitted_to, places_under};

use allocation::LentTriangle;
use governing::CompressionCheck;
use joint::{Bolts, Column, Face};
use outcome::{FaceRefusal, FaceResult, Verdicts};
use spacing::Spacing;
use strength::{BoltStrengths, SteelStrengths};
use verdicts::Tally;

// What the faces of a joint share: the column, and the bolts with the area that a bolt table lists for their diameter.
#[derive(Clone, Copy)]
pub struct SharedParts {
    pub column: Column,
    pub bolts: Bolts,
    pub area: Option<u32>,
    ghost area_in_range: { AreaInRange bolts.diameter area },
}

// Works any face on its column: the whole result, or the first refusal in their order that holds. Panel shear counts in the cap, or not.
// The row forces are the best there are: demand 3, in specs/Demand.antt. Open for Work and the exported calls.
pub fn work_connection(
    panel_counts: bool,
    shared: &SharedParts,
    face: &Face,
) -> Result<FaceResult, FaceRefusal>
    ensures equals { face_meaning result
        ≡ worked_connection panel_counts shared.now.column shared.now.bolts shared.now.area face.now }
    ensures demand { IfOk result
        (λ worked. Demand3For panel_counts shared.now.column shared.now.bolts shared.now.area face.now worked) }
{
    joint::check_fields(shared.column, shared.bolts, shared.area, *face)?;
    // The table lists an area: field 4 was in range.
    let bolt = strength::bolt_strengths(shared.bolts, shared.area.unwrap_or(0));
    FaceAtWork::new(&shared.column, bolt, face).work(panel_counts)
}

// A face in range on its column, with the figures of its bolts, and what is measured of it before it is admitted: the distances about its
// bolts, and its steel strengths.
#[derive(Clone, Copy)]
struct FaceAtWork<'a> {
    column: &'a Column,
    bolt: BoltStrengths,
    face: &'a Face,
    spacing: Spacing,
    steel: SteelStrengths,
    ghost at_work: { AtWork column.now bolt face.now spacing steel },
}

impl<'a> FaceAtWork<'a> {
    fn new(column: &'a Column, bolt: BoltStrengths, face: &'a Face) -> FaceAtWork<'a>
        requires { ColumnInRange column.now × BoltInRange bolt × FaceInRange face.now }
        ensures { (result.column.now ≡ column.now) × (result.bolt ≡ bolt) × (result.face.now ≡ face.now) }
    {
        FaceAtWork {
            column,
            bolt,
            face,
            spacing: spacing::spacing_of(*column, *face),
            steel: strength::steel_strengths(*column, face.beam, face.plate),
        }
    }

    fn work(&self, panel_counts: bool) -> Result<FaceResult, FaceRefusal>
        ensures { face_meaning result ≡ worked_face panel_counts self.now.column.now self.now.bolt self.now.face.now }
    {
        self.admit()?;
        let check = self.governing(panel_counts);
        let cap = governing::tension_cap(check.force(), self.face.loads).ok_or(FaceRefusal::NoCap)?;
        Ok(self.result(check, cap))
    }

    // The refusals tried after 10 and before 15.
    #[tactic(auto, using(refusals::proofs::Rows::front_falls), unfolding(crate::specs::Connection::refusals_after_10, arithmetic::specs::Checks::checks_before, arithmetic::specs::Checks::first_failing,))]
    fn admit(&self) -> Result<(), FaceRefusal>
        ensures value { (panel_counts : Bool) (outcome : FaceOutcome) → admitted_to outcome result
            ≡ first_failing outcome refused_after_10
            (checks_before 15 (refusals_after_10 panel_counts self.now.column.now self.now.bolt self.now.face.now)) }
        ensures admissible { OnOk result (Admissible self.now.column.now self.now.face.now) }
    {
        let face = self.face;
        let pitch = refusals::least_pitch(&face.levers[..face.rows as usize]);
        if pitch < 1 {
            return Err(FaceRefusal::LeversDontFall);
        }
        if pitch < 25 * self.bolt.diameter {
            return Err(FaceRefusal::RowsTooClose);
        }
        if !refusals::rows_in_place(face) {
            return Err(FaceRefusal::RowOutOfPlace);
        }
        if refusals::too_tight(face.extended, self.spacing) {
            return Err(FaceRefusal::TooTight);
        }
        Ok(())
    }

    fn governing(&self, panel_counts: bool) -> CompressionCheck
        ensures { (result ≡ governing_of panel_counts self.now.column.now self.now.face.now) × (force_of result ≤ most_bearing) }
    {
        let face = self.face;
        let resistances = compression::resistances_of(
            self.steel,
            *self.column,
            face.beam,
            face.plate,
            face.welds,
        );
        governing::governing_check(panel_counts, resistances)
    }

    // The whole result of a face that isn't refused, by its governing check and its cap.
    fn result(&self, check: CompressionCheck, cap: u64) -> FaceResult
        requires { Admissible self.now.column.now self.now.face.now }
        ensures { (panel_counts : Bool) → FaceCap panel_counts self.now.column.now self.now.face.now check cap
            → result ≡ result_of panel_counts self.now.column.now self.now.bolt self.now.face.now }
    {
        let forces = self.row_forces(cap);
        let rows = self.face.rows as usize;
        let tally = verdicts::tally_forces(&self.face.levers[..rows], &forces[..rows]);
        FaceResult {
            forces,
            sum: tally.sum,
            newton_metres: tally.moment / 10000,
            cap,
            check,
            verdicts: self.judge(forces, tally),
        }
    }

    // The forces of the rows. With no rows there is no group of all rows for the cap, and no force.
    fn row_forces(&self, cap: u64) -> [u64; 8]
        requires { Admissible self.now.column.now self.now.face.now }
        ensures value { result ≡ places_under self.now.column.now self.now.bolt self.now.face.now cap }
        ensures by_index { (k : ℕ) → get_or result k 0 ≤ most_limit }
    {
        if self.face.rows == 0 {
            return [0; 8];
        }
        self.shared_forces(cap)
    }

    // The forces of rows that there are, under the limits of all groups and the cap on them together, in the triangle or without. A function
    // of its own, so that no table is cleared where there are no rows: a function's locals are cleared as it begins.
    fn shared_forces(&self, cap: u64) -> [u64; 8]
        requires { Admissible self.now.column.now self.now.face.now × (1 ≤ rows_of self.now.face.now) }
        ensures value { result ≡ places_under self.now.column.now self.now.bolt self.now.face.now cap }
        ensures by_index { (k : ℕ) → get_or result k 0 ≤ most_limit }
    {
        let rows = self.face.rows as usize;
        let whole = rows - 1;
        let mut limits = [0u64; 36];
        tension::group_limits(
            self.column,
            self.face,
            self.spacing,
            self.steel,
            self.bolt.pair_tension,
            &mut limits,
        );
        limits[whole] = limits[whole].min(cap);
        allocation::share(rows, &limits, self.triangle())
    }

    // The triangle that the rows go by, where flange and plate are both too thick for the bolts.
    fn triangle(&self) -> Option<LentTriangle<'a>>
        ensures { triangle_of result ≡ triangle_on self.now.column.now self.now.bolt self.now.face.now }
    {
        let face = self.face;
        if !strength::both_too_thick(*self.column, face.plate, self.steel, self.bolt) {
            return None;
        }
        Some(LentTriangle {
            levers: &face.levers[..face.rows as usize],
            reference: face.extended as usize,
        })
    }

    // The four verdicts on the forces.
    fn judge(&self, forces: [u64; 8], tally: Tally) -> Verdicts
        requires { Tallied self.now.face.now forces tally }
        ensures { result ≡ verdicts_of self.now.column.now self.now.bolt self.now.face.now (take (rows_of self.now.face.now) forces) }
    {
        let face = self.face;
        let weld = strength::weld_strength(face.beam.grade, face.plate.grade);
        let idle = u64::from(face.rows + face.shear_rows) - tally.pulling;
        Verdicts {
            bending: verdicts::carries_moment(face.loads, face.beam, tally.moment),
            bolts: verdicts::bolts_carry(
                self.bolt,
                *self.column,
                face.plate,
                tally.pulling,
                idle,
                face.loads.shear,
            ),
            flange_weld: verdicts::flange_weld(
                face,
                self.steel.beam,
                weld,
                verdicts::top_rows(face.extended, forces),
            ),
            web_weld: verdicts::web_weld(face, weld),
        }
    }
}
