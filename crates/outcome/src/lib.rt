// What working a joint comes to: between Work, which makes it, and the sheet, which prints it.
#![tactic(auto)]

ghost use Rattle.std.specs.Prelude.{◌≡◌};
ghost use Rattle.outcome.specs.Outcome.{number_of, field_of_refusal, face_number};

use governing::CompressionCheck;
use joint::OutOfRange;

// Whether a face passes each check.
#[derive(Clone, Copy, PartialEq, Eq, Debug)]
pub struct Verdicts {
    pub bending: bool,
    pub bolts: bool,
    pub flange_weld: bool,
    pub web_weld: bool,
}

// What one face of the column comes to.
#[derive(Clone, Copy, PartialEq, Eq, Debug)]
pub struct FaceResult {
    // newtons, row 1 first; 0 past the last row
    pub forces: [u64; 8],
    // of the forces, newtons
    pub sum: u64,
    pub newton_metres: u64,
    // the tension cap, newtons
    pub cap: u64,
    // the compression check that governs, with its newtons
    pub check: CompressionCheck,
    pub verdicts: Verdicts,
}

// What a face is refused for.
#[derive(Clone, Copy, PartialEq, Eq, Debug)]
pub enum FaceRefusal {
    // the number of the first field out of range
    OutOfRange(u32),
    LeversDontFall,
    RowsTooClose,
    RowOutOfPlace,
    TooTight,
    // N is above the governing force
    NoCap,
}

impl FaceRefusal {
    // Not a cast of the name, as the other refusals' numbers are: one name holds a field.
    pub fn number(self) -> u32
        ensures { result ≡ number_of self }
    {
        match self {
            FaceRefusal::OutOfRange(_) => 10,
            FaceRefusal::LeversDontFall => 11,
            FaceRefusal::RowsTooClose => 19,
            FaceRefusal::RowOutOfPlace => 12,
            FaceRefusal::TooTight => 13,
            FaceRefusal::NoCap => 15,
        }
    }

    // The first field out of range, with refusal 10; else 0, as C's answer and the vectors have it. By name it is in `OutOfRange`.
    pub fn field(self) -> u32
        ensures { result ≡ field_of_refusal self }
    {
        match self {
            FaceRefusal::OutOfRange(field) => field,
            _ => 0,
        }
    }

    // The refusal of the joint whose face this is.
    pub fn on(self, face: RefusedFace) -> JointRefusal
        ensures { result ≡ record { refusal = self; face = face } }
    {
        JointRefusal {
            refusal: self,
            face,
        }
    }
}

impl From<OutOfRange> for FaceRefusal {
    ghost use Rattle.outcome.specs.declared.FaceRefusal.TheVariants.{OutOfRange};

    ghost from_gives = { λ found refusal. refusal ≡ OutOfRange found.field };

    fn from(found: OutOfRange) -> FaceRefusal {
        FaceRefusal::OutOfRange(found.field)
    }
}

// Which of a joint's faces is refused: its only one, or one of two. Three names and no Option, since each has its number by the rules.
#[derive(Clone, Copy, PartialEq, Eq, Debug)]
pub enum RefusedFace {
    Only = 0,
    First = 1,
    Second = 2,
}

// What a joint is refused for.
#[derive(Clone, Copy, PartialEq, Eq, Debug)]
pub struct JointRefusal {
    pub refusal: FaceRefusal,
    pub face: RefusedFace,
}

impl JointRefusal {
    pub fn number(self) -> u32
        ensures { result ≡ number_of self.refusal }
    {
        self.refusal.number()
    }

    // The first field out of range, with refusal 10; else 0.
    pub fn field(self) -> u32
        ensures { result ≡ field_of_refusal self.refusal }
    {
        self.refusal.field()
    }

    // 1 or 2, the face of a joint that has two; else 0.
    pub fn face(self) -> u32
        ensures { result ≡ face_number self.face }
    {
        self.face as u32
    }
}

// What the second face of a joint comes to, and whether the web panel between the faces carries what they bring to it.
#[derive(Clone, Copy, PartialEq, Eq, Debug)]
pub struct SecondFace {
    pub result: FaceResult,
    pub panel_passes: bool,
}

// What a joint comes to.
#[derive(Clone, Copy, PartialEq, Eq, Debug)]
pub struct Worked {
    // of the first face
    pub result: FaceResult,
    // None of a joint with one face: panel shear is in its cap
    pub second: Option<SecondFace>,
}
