// What a joint comes to, as words: those of its first face, those of its second, and the panel's.
ghost use Rattle.std.specs.Prelude.{◌≡◌, ◌≤◌, length, Ok, None};
ghost use Rattle.buffers.specs.Put.{at_front};
ghost use Rattle.outcome.specs.Outcome.{outcome_meaning, second_result};
ghost use Rattle.words.specs.Results.{face_word_count, outcome_word_count, check_number, figure_words, result_words};
ghost use Rattle.words.specs.Results.{outcome_words};

use governing::CompressionCheck;
use outcome::{FaceResult, JointRefusal, Worked};

// The words after the forces, all of a face's, and all of a joint's.
const FIGURE_WORDS: usize = 9;

pub const FACE_WORDS: usize = 8 + FIGURE_WORDS;

pub const OUTCOME_WORDS: usize = 2 * FACE_WORDS + 1;

fn check_number(check: CompressionCheck) -> u64
    ensures { result ≡ check_number check }
{
    match check {
        CompressionCheck::Flange(_) => 0,
        CompressionCheck::Bearing(_) => 1,
        CompressionCheck::Buckling(_) => 2,
        CompressionCheck::Panel(_) => 3,
    }
}

// The words after the forces.
fn figures_of(of_face: &FaceResult) -> [u64; FIGURE_WORDS]
    ensures { result ≡ figure_words of_face.now }
{
    let verdicts = of_face.verdicts;
    [
        of_face.sum,
        of_face.newton_metres,
        of_face.cap,
        check_number(of_face.check),
        of_face.check.force(),
        u64::from(verdicts.bending),
        u64::from(verdicts.bolts),
        u64::from(verdicts.flange_weld),
        u64::from(verdicts.web_weld),
    ]
}

// Puts the words of a face over as many.
fn put_result(of_face: &FaceResult, words: &mut [u64])
    requires { length words.old ≡ face_word_count }
    ensures forces_len { length of_face.now.forces ≡ 8 }
    ensures words_after { words.new ≡ result_words of_face.now }
{
    words[..8].copy_from_slice(&of_face.forces);
    words[8..FACE_WORDS].copy_from_slice(&figures_of(of_face));
}

// Puts the words of a joint's only face at the front of a slice, and 0 for a second face and for the panel. How many forces a face has is
// promised by each of these four, since of a face behind a reference a caller isn't told.
pub fn put_one_face(of_face: &FaceResult, words: &mut [u64])
    requires { outcome_word_count ≤ length words.old }
    ensures forces_len { length of_face.now.forces ≡ 8 }
    ensures words_after { words.new
        ≡ at_front (outcome_words (outcome_meaning (Ok (record { result = of_face.now; second = None })))) words.old }
{
    put_result(of_face, &mut words[..FACE_WORDS]);
    words[FACE_WORDS..OUTCOME_WORDS].fill(0);
}

// Puts the words of a joint that isn't refused at the front of a slice.
pub fn put_worked(worked: &Worked, words: &mut [u64])
    requires { outcome_word_count ≤ length words.old }
    ensures forces_len { (length worked.now.result.forces ≡ 8) × (length (second_result worked.now.second).forces ≡ 8) }
    ensures words_after { words.new ≡ at_front (outcome_words (outcome_meaning (Ok worked.now))) words.old }
{
    match &worked.second {
        None => put_one_face(&worked.result, words),
        Some(second) => {
            put_result(&worked.result, &mut words[..FACE_WORDS]);
            put_result(&second.result, &mut words[FACE_WORDS..2 * FACE_WORDS]);
            words[2 * FACE_WORDS] = u64::from(second.panel_passes);
        }
    }
}

// Puts the words of what any joint comes to at the front of a slice: of a refused one they are 0, as no face of it has a figure. The
// exported calls put nothing of a refusal, and ask `put_worked`.
pub fn put_outcome(outcome: &Result<Worked, JointRefusal>, words: &mut [u64])
    requires { outcome_word_count ≤ length words.old }
    ensures forces_len { (length (outcome_meaning outcome.now).result.forces ≡ 8)
        × (length (outcome_meaning outcome.now).other.forces ≡ 8) }
    ensures words_after { words.new ≡ at_front (outcome_words (outcome_meaning outcome.now)) words.old }
{
    match outcome {
        Ok(worked) => put_worked(worked, words),
        Err(_) => words[..OUTCOME_WORDS].fill(0),
    }
}
