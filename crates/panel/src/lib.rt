// The verdict on the web panel of a column with a beam on both faces (rule 8.6).
#![tactic(auto)]

ghost use Rattle.std.specs.Prelude.{◌≡◌, ◌<◌, ◌^◌};
ghost use Rattle.joint.specs.InRange.{LoadsInRange};
ghost use Rattle.panel.specs.Panel.{governing_total, panel_passes};
ghost use Rattle.panel.specs.Asked.{PanelAsked};

use joint::Loads;

// Whether the panel carries the difference of the governing totals of the two faces, whichever is the larger. Work calls it for faces
// whose fields are in range.
#[tactic(auto, unfolding(crate::specs::Panel::panel_passes))]
pub fn panel_passes(
    shear: u64,
    first_sum: u64,
    first: Loads,
    second_sum: u64,
    second: Loads,
) -> bool
    requires { PanelAsked first_sum first second_sum second }
    ensures { result ≡ panel_passes shear (governing_total first_sum first) (governing_total second_sum second) }
{
    let total = governing_total(first_sum, first);
    let other_total = governing_total(second_sum, second);
    total.abs_diff(other_total) <= shear
}

// The sum of a face's forces plus N.
#[tactic(auto, unfolding(crate::specs::Panel::governing_total))]
fn governing_total(sum: u64, loads: Loads) -> i64
    requires { (sum < 2 ^ 32) × LoadsInRange loads }
    ensures { result ≡ governing_total sum loads }
{
    sum.cast_signed() + i64::from(loads.axial)
}
