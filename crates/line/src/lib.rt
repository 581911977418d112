// Lines of the sheet (rules 12.2 to 12.4 and 12.6): what working a joint came to, and what a joint that can't be read was refused for,
// each handed over byte by byte: a writer puts it, a counter measures it. What is open here is so for the crate of the sheet, which shows
// that there is room for what it hands over.
#![tactic(auto)]

ghost use Rattle.std.specs.Prelude.{◌≡◌, [], ◌∷◌, map, Ok, Err};
ghost use Rattle.outcome.specs.Outcome.{outcome_meaning, second_panel};
ghost use Rattle.jointfile.specs.Answers.{read_refusal};
ghost use Rattle.items.specs.Digits.{decimal};
ghost use Rattle.items.specs.Items.{letter, spaced};
ghost use Rattle.line.specs.Line.{check_letter, verdict_letter, letters_of, row_forces, shown_letters, result_line};
ghost use Rattle.line.specs.Line.{refusal_line, refusal_items, face_lines, outcome_lines, concatenated};
ghost use Rattle.line.specs.Steps.{refusal_begun, field_items, face_items};

use governing::CompressionCheck;
use items::{Sink, put_letters, put_numbers};
use jointfile::ReadRefusal;
use outcome::{FaceRefusal, FaceResult, JointRefusal, RefusedFace, SecondFace, Worked};

// No line is longer.
pub const MOST_LINE: usize = 285;

// Hands over the lines of a joint that was read: its result, face by face, or the refusal by which Work turned it down.
pub fn put_outcome<S: Sink>(
    sink: &mut S,
    number: u64,
    rows: u32,
    other_rows: u32,
    outcome: Result<Worked, JointRefusal>,
)
    requires { S.has_room sink.old (concatenated (outcome_lines number rows other_rows (outcome_meaning outcome))) }
    ensures { S.takes sink.old (concatenated (outcome_lines number rows other_rows (outcome_meaning outcome))) sink.new }
{
    match outcome {
        Ok(worked) => put_faces(sink, number, rows, other_rows, &worked),
        Err(refused) => put_work_refusal(sink, number, refused),
    }
}

// Hands over the line of a joint that can't be read.
pub fn put_read_refusal<S: Sink>(sink: &mut S, number: u64, refusal: ReadRefusal)
    requires { S.has_room sink.old (refusal_line number (read_refusal refusal ∷ [])) }
    ensures { S.takes sink.old (refusal_line number (read_refusal refusal ∷ [])) sink.new }
{
    begin_refusal(sink, number, refusal.number());
    sink.byte(b'\n');
}

// ---- refusals

// The refusal's number, the field for 10 alone, and last the face, of a joint that has two.
fn put_work_refusal<S: Sink>(sink: &mut S, number: u64, refused: JointRefusal)
    requires { S.has_room sink.old (refusal_line number (refusal_items (outcome_meaning (Err refused)).refusal)) }
    ensures { S.takes sink.old (refusal_line number (refusal_items (outcome_meaning (Err refused)).refusal)) sink.new }
{
    begin_refusal(sink, number, refused.number());
    put_field(sink, refused.refusal);
    put_face(sink, refused.face);
    sink.byte(b'\n');
}

// The joint's number, R, and the refusal's number: Read's and Work's refusals have no other thing in common.
fn begin_refusal<S: Sink>(sink: &mut S, number: u64, refusal: u32)
    requires { S.has_room sink.old (refusal_begun number refusal) }
    ensures { S.takes sink.old (refusal_begun number refusal) sink.new }
{
    sink.number(number);
    put_letters(sink, b"R");
    put_numbers(sink, &[u64::from(refusal)]);
}

fn put_field<S: Sink>(sink: &mut S, refusal: FaceRefusal)
    requires { S.has_room sink.old (spaced (map decimal (field_items refusal))) }
    ensures { S.takes sink.old (spaced (map decimal (field_items refusal))) sink.new }
{
    if let FaceRefusal::OutOfRange(field) = refusal {
        put_numbers(sink, &[u64::from(field)]);
    }
}

fn put_face<S: Sink>(sink: &mut S, face: RefusedFace)
    requires { S.has_room sink.old (spaced (map decimal (face_items face))) }
    ensures { S.takes sink.old (spaced (map decimal (face_items face))) sink.new }
{
    match face {
        RefusedFace::Only => {}
        RefusedFace::First | RefusedFace::Second => put_numbers(sink, &[face as u64]),
    }
}

// ---- results

// A line for each face. Sink, number and rows go through three steps as they are: a struct of them would be taken apart in each.
fn put_faces<S: Sink>(sink: &mut S, number: u64, rows: u32, other_rows: u32, worked: &Worked)
    requires { S.has_room sink.old (concatenated (face_lines number rows other_rows (outcome_meaning (Ok worked.now)))) }
    ensures { S.takes sink.old (concatenated (face_lines number rows other_rows (outcome_meaning (Ok worked.now)))) sink.new }
{
    let second = &worked.second;
    put_result(sink, number, rows, &worked.result, second);
    if let Some(other) = second {
        put_result(sink, number, other_rows, &other.result, second);
    }
}

// The line of a face, and with it the panel's verdict, where there are two.
fn put_result<S: Sink>(
    sink: &mut S,
    number: u64,
    rows: u32,
    face: &FaceResult,
    second: &Option<SecondFace>,
)
    requires { S.has_room sink.old (result_line number rows face.now (second_panel second.now)) }
    ensures { S.takes sink.old (result_line number rows face.now (second_panel second.now)) sink.new }
{
    sink.number(number);
    put_rows(sink, rows, &face.forces);
    put_numbers(sink, &[face.sum, face.newton_metres, face.cap]);
    put_verdicts(sink, face, second);
    sink.byte(b'\n');
}

// The row count and the forces of the rows: no face has more than eight.
fn put_rows<S: Sink>(sink: &mut S, rows: u32, forces: &[u64; 8])
    requires { S.has_room sink.old (spaced (map decimal (rows ∷ row_forces rows forces.now))) }
    ensures { S.takes sink.old (spaced (map decimal (rows ∷ row_forces rows forces.now))) sink.new }
{
    put_numbers(sink, &[u64::from(rows)]);
    put_numbers(sink, &forces[..rows.min(8) as usize]);
}

// The letters of the governing check and the verdicts, the panel's last.
fn put_verdicts<S: Sink>(sink: &mut S, face: &FaceResult, second: &Option<SecondFace>)
    requires { S.has_room sink.old (spaced (map letter (shown_letters face.now (second_panel second.now)))) }
    ensures { S.takes sink.old (spaced (map letter (shown_letters face.now (second_panel second.now)))) sink.new }
{
    put_letters(sink, &letters_of(face));
    if let Some(second) = second {
        put_letters(sink, &[verdict_letter(second.panel_passes)]);
    }
}

fn letters_of(face: &FaceResult) -> [u8; 5]
    ensures { result ≡ letters_of face.now }
{
    [
        check_letter(face.check),
        verdict_letter(face.verdicts.bending),
        verdict_letter(face.verdicts.bolts),
        verdict_letter(face.verdicts.flange_weld),
        verdict_letter(face.verdicts.web_weld),
    ]
}

fn check_letter(check: CompressionCheck) -> u8
    ensures { result ≡ check_letter check }
{
    match check {
        CompressionCheck::Flange(_) => b'F',
        CompressionCheck::Bearing(_) => b'B',
        CompressionCheck::Buckling(_) => b'K',
        CompressionCheck::Panel(_) => b'S',
    }
}

fn verdict_letter(passes: bool) -> u8
    ensures { result ≡ verdict_letter passes }
{
    if passes { b'P' } else { b'F' }
}
