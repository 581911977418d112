// The calls as C and Rust see them: over numbers and lent slices. A joint is `JOINT_WORDS` words of 32 bits, its fields in file
// order and all eight levers, and those of a second face; N is its two's complement. A result is `OUTCOME_WORDS` words of 64 bits, face by
// face. A bolt table is `TABLE_WORDS` words of 32 bits, its count, twelve diameters and twelve areas. A kind of file is a number: 1 is the
// old one, and any other number the new one.
//
// An answer tells all of a refusal in its parts: its number in the lowest 8 bits, the field, for 10, times 256, and the face, of a joint
// that has two, times 65536. 0 is no refusal; 100 says that a lent slice is too short to hold a joint, a table, a result or eight forces,
// and 101, of the sheet alone, that the output has no room for all lines. Whatever the answer is but 0, every slice and place is as it was.
// The sheet's refusals are its lines: they are printed, `R 4` too, and answered 0.
#![tactic(auto)]

ghost use Rattle.std.specs.Prelude.{◌≡◌, ◌≤◌, false, length, take};
ghost use Rattle.joint.specs.Faces.{two_faced};
ghost use Rattle.jointfile.specs.File.{reading};
ghost use Rattle.sharing.specs.Groups.{listed};
ghost use Rattle.sharing.specs.Best.{Best};
ghost use Rattle.outcome.specs.Outcome.{number_of, field_of_refusal, face_number};
ghost use Rattle.words.specs.Tables.{table_of_words};
ghost use Rattle.words.specs.Words.{first_word_count, joint_of_words};
ghost use Rattle.words.specs.Results.{outcome_word_count};
ghost use Rattle.exports.specs.Answers.{answer_number, answers};
ghost use Rattle.exports.specs.Calls.{allocating, kind_of, reading_into, writing_into, built_in_into, loading_into, working_into};
ghost use Rattle.exports.specs.Calls.{WorkedWords, Demand3OfWords, sheeting_into};

use connection::{SharedParts, work_connection};
use jointfile::FileKind;
use outcome::{JointRefusal, RefusedFace};
use words::joints::{JOINT_WORDS, JointWords, OneFaced};
use words::results::{OUTCOME_WORDS, put_one_face, put_worked};
use words::tables::{TABLE_WORDS, TableWords};

// The number of the old kind of file.
const OLD_KIND: u32 = 1;

// A lent slice is too short.
const SHORT: u32 = 100;

// The output has no room for all lines.
const NO_ROOM: u32 = 101;

// Allocate: the forces go to the first eight places, and are the best that the limits allow.
#[unsafe(no_mangle)]
pub extern "C" fn jinqewan_allocate(count: usize, limits: &[u64], forces: &mut [u64]) -> u32
    ensures equals { answers result forces.new ≡ allocating count limits.now forces.old }
    ensures best { result ≡ 0 → Best (listed count limits.now) count (take count forces.new) }
{
    if forces.len() < 8 {
        return SHORT;
    }
    match allocation::allocate(count, limits) {
        Ok(eight) => {
            forces[..8].copy_from_slice(&eight);
            0
        }
        Err(refusal) => refusal.number(),
    }
}

// The kind of file that a number says. Only C has the number, and a conversion would stand in jointfile.
fn kind_of(number: u32) -> FileKind
    ensures { result ≡ kind_of number }
{
    if number == OLD_KIND {
        FileKind::Old
    } else {
        FileKind::New
    }
}

// Read: the joint's words go to the first places, and the place after it to `next`.
#[unsafe(no_mangle)]
pub extern "C" fn jinqewan_read(
    bytes: &[u8],
    kind: u32,
    fields: &mut [u32],
    next: &mut usize,
) -> u32
    ensures { answers result (record { words = fields.new; next = next.new })
        ≡ reading_into bytes.now kind fields.old next.old }
{
    if fields.len() < JOINT_WORDS {
        return SHORT;
    }
    match jointfile::read(bytes, kind_of(kind)) {
        Ok(reading) => {
            words::joints::put_joint(reading.joint, fields);
            *next = reading.next;
            0
        }
        Err(unread) => unread.number(),
    }
}

// Rest: the place where the part after the first joint begins, the end when it can't be read.
#[unsafe(no_mangle)]
pub extern "C" fn jinqewan_rest(bytes: &[u8], kind: u32) -> usize
    ensures { result ≡ (reading (kind_of kind) bytes.now).next }
{
    bytes.len() - jointfile::rest(bytes, kind_of(kind)).len()
}

// Write: the file goes to the buffer's front and its length to `length`.
#[unsafe(no_mangle)]
pub extern "C" fn jinqewan_write(fields: &[u32], buffer: &mut [u8], length: &mut usize) -> u32
    ensures { answers result (record { bytes = buffer.new; size = length.new })
        ≡ writing_into fields.now buffer.old length.old }
{
    let Some(fields) = JointWords::of(fields) else {
        return SHORT;
    };
    match jointfile::write(fields.joint(), buffer) {
        Ok(size) => {
            *length = size;
            0
        }
        Err(unwritten) => unwritten.number(),
    }
}

// The bolt table that is built in, to the first places.
#[unsafe(no_mangle)]
pub extern "C" fn jinqewan_built_in(table: &mut [u32]) -> u32
    ensures { answers result table.new ≡ built_in_into table.old }
{
    if table.len() < TABLE_WORDS {
        return SHORT;
    }
    words::tables::put_table(&bolttable::built_in(), table);
    0
}

// Loads a bolt table: it goes to the first places of the one in force, which stays as it was where the table isn't taken.
#[unsafe(no_mangle)]
pub extern "C" fn jinqewan_load(table: &[u32], in_force: &mut [u32]) -> u32
    ensures { answers result in_force.new ≡ loading_into table.now in_force.old }
{
    let Some(table) = TableWords::of(table) else {
        return SHORT;
    };
    if in_force.len() < TABLE_WORDS {
        return SHORT;
    }
    match table.lent().check() {
        Ok(()) => {
            table.put(in_force);
            0
        }
        Err(not_taken) => not_taken.number(),
    }
}

// A refusal of Work in its parts.
fn answer_of(refused: JointRefusal) -> u32
    requires { field_of_refusal refused.refusal ≤ first_word_count }
    ensures { result
        ≡ answer_number (number_of refused.refusal) (field_of_refusal refused.refusal) (face_number refused.face) }
{
    refused.number() + 256 * refused.field() + 65536 * refused.face()
}

// Works a joint's words with a table's, and puts the words of what they come to.
fn work_words(table: TableWords, fields: JointWords, res: &mut [u64]) -> Result<(), JointRefusal>
    requires { outcome_word_count ≤ length res.old }
    ensures { WorkedWords table.entry.words.now fields.entry.words.now result res.old res.new }
{
    if fields.is_two_faced() {
        work_joint(table, fields, res)
    } else {
        work_only_face(table, fields, res)
    }
}

// The same of any joint, asked where there are two faces.
fn work_joint(table: TableWords, fields: JointWords, res: &mut [u64]) -> Result<(), JointRefusal>
    requires { outcome_word_count ≤ length res.old }
    ensures { WorkedWords table.entry.words.now fields.entry.words.now result res.old res.new }
{
    let joint = fields.joint();
    let area = table.lent().area_of(joint.bolts.diameter);
    let worked = work::work_with(area, &joint)?;
    put_worked(&worked, res);
    Ok(())
}

// Works the words of a joint with one face: nothing of a second is made, which would take a tenth of the time of one bolt row. Panel shear
// counts in the cap.
fn work_only_face(
    table: TableWords,
    fields: JointWords,
    res: &mut [u64],
) -> Result<(), JointRefusal>
    requires room { outcome_word_count ≤ length res.old }
    requires alone { two_faced (joint_of_words fields.words.now).face.rows ≡ false }
    ensures { WorkedWords table.entry.words.now fields.entry.words.now result res.old res.new }
{
    let OneFaced {
        column,
        bolts,
        face,
    } = fields.one_faced();
    let area = table.lent().area_of(bolts.diameter);
    let shared = SharedParts {
        column,
        bolts,
        area,
    };
    match &work_connection(true, &shared, &face) {
        Ok(result) => {
            put_one_face(result, res);
            Ok(())
        }
        Err(why) => Err(why.on(RefusedFace::Only)),
    }
}

// Work, with the bolt table in force: the result's words go to the first places, and its forces are the best there are: demand 3.
#[unsafe(no_mangle)]
pub extern "C" fn jinqewan_work(table: &[u32], fields: &[u32], res: &mut [u64]) -> u32
    ensures equals { answers result res.new
        ≡ working_into table.now fields.now res.old }
    ensures demand { result ≡ 0
        → Demand3OfWords (table_of_words table.now) (joint_of_words fields.now) res.new }
{
    let (Some(table), Some(fields)) = (TableWords::of(table), JointWords::of(fields)) else {
        return SHORT;
    };
    if res.len() < OUTCOME_WORDS {
        return SHORT;
    }
    match work_words(table, fields, res) {
        Ok(()) => 0,
        Err(refused) => answer_of(refused),
    }
}

// Sheet: the lines go to the output's front and their length to `length`.
#[unsafe(no_mangle)]
pub extern "C" fn jinqewan_sheet(input: &[u8], output: &mut [u8], length: &mut usize) -> u32
    ensures { answers result (record { bytes = output.new; size = length.new })
        ≡ sheeting_into input.now output.old length.old }
{
    match printer::sheet(input, output) {
        Ok(total) => {
            *length = total;
            0
        }
        Err(_) => NO_ROOM,
    }
}
