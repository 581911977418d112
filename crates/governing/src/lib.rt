// Which of the four compression resistances governs, and the tension cap that it leaves (rules 5.6, 5.7, 5.10 and 11.7).
#![tactic(auto)]

ghost use Rattle.std.specs.Prelude.{◌≡◌, ◌≤◌};
ghost use Rattle.joint.specs.InRange.{LoadsInRange};
ghost use Rattle.compression.specs.InRange.{most_bearing};
ghost use Rattle.governing.specs.Governing.{force_of, lesser, governing_check};
ghost use Rattle.governing.specs.Answers.{cap_case};

use compression::Resistances;
use joint::Loads;

// A compression check with its force in newtons.
#[derive(Clone, Copy, PartialEq, Eq, Debug)]
pub enum CompressionCheck {
    Flange(u64),
    Bearing(u64),
    Buckling(u64),
    Panel(u64),
}

impl CompressionCheck {
    pub fn force(self) -> u64
        ensures { result ≡ force_of self }
    {
        match self {
            CompressionCheck::Flange(force)
            | CompressionCheck::Bearing(force)
            | CompressionCheck::Buckling(force)
            | CompressionCheck::Panel(force) => force,
        }
    }

    // The one with the smaller force, the first where they are equal. std's `min_by_key` would be no plainer, and to unfold.
    #[tactic(auto, unfolding(crate::specs::Governing::lesser))]
    fn lesser(self, other: CompressionCheck) -> CompressionCheck
        ensures { result ≡ lesser self other }
    {
        if self.force() <= other.force() {
            self
        } else {
            other
        }
    }
}

// The check that governs: the first least of the four, or of the first three where panel shear doesn't count.
#[tactic(auto, unfolding(crate::specs::Governing::governing_check))]
pub fn governing_check(panel_counts: bool, resistances: Resistances) -> CompressionCheck
    ensures { result ≡ governing_check panel_counts resistances }
{
    let flange = CompressionCheck::Flange(resistances.flange);
    let bearing = CompressionCheck::Bearing(resistances.bearing);
    let buckling = CompressionCheck::Buckling(resistances.buckling);
    let least = flange.lesser(bearing).lesser(buckling);
    if panel_counts {
        return least.lesser(CompressionCheck::Panel(resistances.panel));
    }
    least
}

// The tension cap in newtons, or none, which is refusal 15: N is above the governing force. It is called for a face whose fields are in
// range.
#[tactic(auto, unfolding(crate::specs::Answers::cap_case, crate::specs::Cap::over_compressed, crate::specs::Cap::tension_cap))]
pub fn tension_cap(force: u64, loads: Loads) -> Option<u64>
    requires { (force ≤ most_bearing) × LoadsInRange loads }
    ensures { result ≡ cap_case loads force }
{
    u64::try_from(force.cast_signed() - i64::from(loads.axial)).ok()
}
