// Work: one joint worked whole (rules 11), with a beam on one face of the column or on both. Each face is a connection worked on the
// shared column and bolts, whose area comes from the bolt table in force; of two, the panel between them is judged.
#![tactic(auto)]

ghost use Rattle.std.specs.Prelude.{◌≡◌, cond, OnOk};
ghost use Rattle.bolttable.specs.InRange.{AreaInRange};
ghost use Rattle.joint.specs.InRange.{ColumnInRange};
ghost use Rattle.outcome.specs.Outcome.{Passes, Fails, outcome_meaning};
ghost use Rattle.panel.specs.Asked.{PanelAsked};
ghost use Rattle.work.specs.Work.{panel_verdict, worked_faces, worked_with, worked};
ghost use Rattle.work.specs.Demand.{FacesDemand3, Demand3With, Demand3Of};

use bolttable::BoltTable;
use connection::{SharedParts, work_connection};
use joint::{Column, Face, Joint, Loads};
use outcome::{JointRefusal, RefusedFace, SecondFace, Worked};

// Works any joint with any bolt table in force: the whole result, or the first refusal in their order that holds. The row forces are the
// best there are: demand 3, in specs/Demand.antt. Of a joint with one face nothing of a second is looked at.
pub fn work(table: &BoltTable, joint: &Joint) -> Result<Worked, JointRefusal>
    ensures equals { outcome_meaning result ≡ worked table.now joint.now }
    ensures demand { OnOk result (Demand3Of table.now joint.now (outcome_meaning result)) }
{
    work_with(bolttable::area_of(table, joint.bolts.diameter), joint)
}

// The same by the area that the table lists for the joint's bolts. Open for the exported calls, which have it from a table that is lent.
pub fn work_with(area: Option<u32>, joint: &Joint) -> Result<Worked, JointRefusal>
    requires { AreaInRange joint.now.bolts.diameter area }
    ensures equals { outcome_meaning result ≡ worked_with area joint.now }
    ensures demand { OnOk result (Demand3With area joint.now (outcome_meaning result)) }
{
    let shared = SharedParts {
        column: joint.column,
        bolts: joint.bolts,
        area,
    };
    if joint::is_two_faced(joint.face.rows) {
        let first = joint::first_face(joint.face);
        return work_faces(&shared, &first, &joint.other);
    }
    match work_connection(true, &shared, &joint.face) {
        Ok(result) => Ok(Worked {
            result,
            second: None,
        }),
        Err(why) => Err(why.on(RefusedFace::Only)),
    }
}

// Both faces, the first before the second. Panel shear counts in neither's cap.
fn work_faces(shared: &SharedParts, first: &Face, second: &Face) -> Result<Worked, JointRefusal>
    ensures equals { outcome_meaning result
        ≡ worked_faces shared.now.column shared.now.bolts shared.now.area first.now second.now }
    ensures demand { OnOk result
        (FacesDemand3 shared.now.column shared.now.bolts shared.now.area first.now second.now (outcome_meaning result)) }
{
    let one = work_connection(false, shared, first).map_err(|why| why.on(RefusedFace::First))?;
    let two = work_connection(false, shared, second).map_err(|why| why.on(RefusedFace::Second))?;
    let panel_passes = panel_passes(shared.column, one.sum, first.loads, two.sum, second.loads);
    Ok(Worked {
        result: one,
        second: Some(SecondFace {
            result: two,
            panel_passes,
        }),
    })
}

// Whether the panel carries what two faces that aren't refused bring to it, by the sums of their forces and their loads.
fn panel_passes(
    column: Column,
    first_sum: u64,
    first: Loads,
    second_sum: u64,
    second: Loads,
) -> bool
    requires { ColumnInRange column × PanelAsked first_sum first second_sum second }
    ensures { cond result Passes Fails ≡ panel_verdict column first_sum first second_sum second }
{
    let strength = strength::steel_strength(column.grade, column.flange);
    let shear = compression::panel_shear(strength, column);
    panel::panel_passes(shear, first_sum, first, second_sum, second)
}
