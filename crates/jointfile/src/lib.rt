// Joint files: `read` takes a joint off the front of any bytes, `rest` is what is left after it, and `write` puts a joint's file into a
// lent buffer. The first two are told which kind of file it is; what is written is of the new kind. Each goes over the bytes once, from
// front to back. Two things are done twice, for a reason. `write` measures the numbers before it puts them where the buffer may be too
// short for them, since such a buffer stays untouched. And `rest` reads the joint again; a caller that has `read`'s answer need not ask
// it, since the bytes from the answer's next place on are what is left.
#![tactic(auto)]

ghost use Rattle.std.specs.Prelude.{◌+◌, ◌≤◌, ◌≡◌, true, leb, length, drop, replicate};
ghost use Rattle.joint.specs.Faces.{two_faced};
ghost use Rattle.buffers.specs.Writing.{Puts, HasRoom};
ghost use Rattle.numbers.specs.Answers.{number_of};
ghost use Rattle.numbers.specs.Run.{all_zero};
ghost use Rattle.fields.specs.Fields.{field};
ghost use Rattle.jointfile.specs.File.{stored_field_count, read_second, answer, reading, rest_of, EndOf};
ghost use Rattle.jointfile.specs.Write.{rows_check, spare_check, file, writing};
ghost use Rattle.jointfile.specs.Answers.{read_refusal, write_refusal, reading_meaning, OthersRead, PartRead};
ghost use Rattle.jointfile.specs.Answers.{written_meaning, writing_if_room, part_stored, numbers_stored, FileParts};
ghost use Rattle.jointfile.specs.declared.FileKind.TheVariants.{New};

use buffers::Writer;
use fields::{FIELD_COUNT, OWN_COUNT, fields_of, joint_of, own_of};
use joint::{Joint, first_rows, is_row_count, is_two_faced};
use numbers::number::{Number, NumberRefusal, number_at};
use numbers::run::{all_zero, numbers_at, put_numbers, stored_size};

// The kinds of joint file. The old one has no z, field 30.
#[derive(Clone, Copy, PartialEq, Eq, Debug)]
pub enum FileKind {
    Old,
    New,
}

// How many fields stand before the levers of a file.
fn stored_field_count(kind: FileKind) -> usize
    ensures { result ≡ stored_field_count kind }
{
    match kind {
        FileKind::Old => FIELD_COUNT - 1,
        FileKind::New => FIELD_COUNT,
    }
}

// z of a joint whose file doesn't tell it.
const UNTOLD_END_DISTANCE: u32 = 15000;

// Why a joint can't be read: the bytes end within it, a number could be stored shorter or has more than 32 bits, or a face's row count isn't
// 0 to 8.
#[derive(Clone, Copy, PartialEq, Eq, Debug)]
pub enum ReadRefusal {
    BytesEnd = 1,
    WrongForm = 2,
    RowCount = 3,
}

impl ReadRefusal {
    pub fn number(self) -> u32
        ensures { result ≡ read_refusal self }
    {
        self as u32
    }
}

impl From<NumberRefusal> for ReadRefusal {
    ghost from_gives = { λ number joint. read_refusal joint ≡ number_of number };

    fn from(refusal: NumberRefusal) -> ReadRefusal {
        match refusal {
            NumberRefusal::BytesEnd => ReadRefusal::BytesEnd,
            NumberRefusal::WrongForm => ReadRefusal::WrongForm,
        }
    }
}

// A joint that was read, and the place after it: an answer has the next place, as a number's does, so places go on from part to part.
#[derive(Clone, Copy)]
pub struct Reading {
    pub joint: Joint,
    pub next: usize,
}

// Reads what follows a row count: the other fields, and the levers into the first places of eight that are 0. Answers the place after them.
#[tactic(auto, using(crate::proofs::Answers::others_stopped))]
fn read_others(
    bytes: &[u8],
    from: usize,
    rows: usize,
    others: &mut [u32],
    levers: &mut [u32],
) -> Result<usize, NumberRefusal>
    requires { (rows ≤ 8) × (levers.old ≡ replicate 8 0) }
    ensures { OthersRead bytes.now from rows others.old others.new levers.new result }
{
    let after = numbers_at(bytes, from, others)?;
    numbers_at(bytes, after, &mut levers[..rows])
}

// Reads a face's part of a file after its row count, which stands for so many rows and is judged first. Answers the place after it.
#[tactic(auto, using(crate::proofs::Answers::part_taken, crate::proofs::Answers::lent_others, crate::proofs::Answers::counted))]
fn read_part(
    bytes: &[u8],
    count: Number,
    rows: u32,
    fields: &mut [u32],
    levers: &mut [u32],
) -> Result<usize, ReadRefusal>
    requires { (1 ≤ length fields.old) × (levers.old ≡ replicate 8 0) }
    ensures { PartRead bytes.now count rows fields.old fields.new levers.new result }
{
    let rows = rows as usize;
    if !is_row_count(rows) {
        return Err(ReadRefusal::RowCount);
    }
    fields[0] = count.value;
    let next = read_others(bytes, count.next, rows, &mut fields[1..], levers)?;
    Ok(next)
}

// Reads the second face's part, after the first one's, whose count is marked. Its own count isn't.
fn read_second(
    bytes: &[u8],
    from: usize,
    fields: [u32; FIELD_COUNT],
    levers: [u32; 8],
) -> Result<Reading, ReadRefusal>
    requires { (from ≤ length bytes.now) × (two_faced (field 1 fields) ≡ true) }
    ensures { reading_meaning (length bytes.now) result
        ≡ answer (length bytes.now) (read_second fields levers (drop from bytes.now)) }
{
    let mut own = [0; OWN_COUNT];
    let mut other_levers = [0; 8];
    let count = number_at(bytes, from)?;
    let next = read_part(bytes, count, count.value, &mut own, &mut other_levers)?;
    let joint = joint_of(fields, levers, own, other_levers);
    Ok(Reading { joint, next })
}

// The joint that the bytes begin with. z gets its value for the old kind first; a file that has z is read over it.
pub fn read(bytes: &[u8], kind: FileKind) -> Result<Reading, ReadRefusal>
    ensures { reading_meaning (length bytes.now) result ≡ reading kind bytes.now }
{
    let mut fields = [0; FIELD_COUNT];
    fields[FIELD_COUNT - 1] = UNTOLD_END_DISTANCE;
    let mut levers = [0; 8];
    let stored = stored_field_count(kind);
    let count = number_at(bytes, 0)?;
    let next = read_part(
        bytes,
        count,
        first_rows(count.value),
        &mut fields[..stored],
        &mut levers,
    )?;
    if is_two_faced(fields[0]) {
        return read_second(bytes, next, fields, levers);
    }
    let joint = joint_of(fields, levers, [0; OWN_COUNT], [0; 8]);
    Ok(Reading { joint, next })
}

// The part of the bytes after their first joint, and where it can't be read the empty part at their end: in any case a part of the very
// bytes that were lent.
pub fn rest(bytes: &[u8], kind: FileKind) -> &[u8]
    ensures value { result.now ≡ rest_of kind bytes.now }
    ensures part { EndOf result bytes.entry }
{
    match read(bytes, kind) {
        Ok(reading) => &bytes[reading.next..],
        Err(_) => &bytes[bytes.len()..],
    }
}

// Why a joint's file can't be written: a face's row count isn't 0 to 8, the buffer is too short, or a lever past the rows isn't 0.
#[derive(Clone, Copy, PartialEq, Eq, Debug)]
pub enum WriteRefusal {
    RowCount = 3,
    NoRoom = 5,
    SpareLever = 6,
}

impl WriteRefusal {
    pub fn number(self) -> u32
        ensures { result ≡ write_refusal self }
    {
        self as u32
    }
}

// No file of two faces is shorter: a byte for each field, and for each that the second face has of its own. Neither need have a lever.
pub const LEAST_TWO_FACED: usize = FIELD_COUNT + OWN_COUNT;

// Whether so many places hold the numbers of a file. The first takes one byte and each other at most five; only a buffer that may be too
// short by that asks for measuring. They are four slices and no structs, since writing files of two faces from structs was slower.
#[tactic(auto, using(numbers::proofs::Sizes::stored_all_short, crate::proofs::IfRoom::numbers_size, crate::proofs::IfRoom::numbers_fit))]
fn has_room(fields: &[u32], levers: &[u32], own: &[u32], other_levers: &[u32], room: usize) -> bool
    requires { FileParts fields.now levers.now own.now other_levers.now }
    ensures { result
        ≡ leb (length (numbers_stored fields.now levers.now own.now other_levers.now)) room }
{
    if 1 + 5 * (fields.len() - 1 + levers.len() + own.len() + other_levers.len()) <= room {
        return true;
    }
    stored_size(fields) + stored_size(levers) + stored_size(own) + stored_size(other_levers) <= room
}

// Puts the numbers of a file into the buffer, if there is room for them, and answers how long they are.
#[tactic(auto, using(crate::proofs::IfRoom::short_of_room, crate::proofs::IfRoom::writer_room, buffers::proofs::Writers::has_room_after))]
fn put_file(
    fields: &[u32],
    levers: &[u32],
    own: &[u32],
    other_levers: &[u32],
    buffer: &mut [u8],
) -> Result<usize, WriteRefusal>
    requires { FileParts fields.now levers.now own.now other_levers.now }
    ensures { written_meaning result buffer.new
        ≡ writing_if_room (numbers_stored fields.now levers.now own.now other_levers.now)
        buffer.old }
{
    if !has_room(fields, levers, own, other_levers, buffer.len()) {
        return Err(WriteRefusal::NoRoom);
    }
    let mut writer = Writer::new(buffer);
    put_part(&mut writer, fields, levers);
    put_part(&mut writer, own, other_levers);
    Ok(writer.at)
}

// Puts the numbers of a part, for which there is room.
#[tactic(auto, using(buffers::proofs::Writers::has_room_after))]
fn put_part(writer: &mut Writer, fields: &[u32], levers: &[u32])
    requires { HasRoom writer.old (length (part_stored fields.now levers.now)) }
    ensures { Puts writer.old (part_stored fields.now levers.now) writer.new }
{
    put_numbers(writer, fields);
    put_numbers(writer, levers);
}

// Refusal 3's question of each face that a joint has: whether it may have so many rows.
#[tactic(auto, unfolding(joint::specs::Faces::first_face))]
fn has_row_counts(joint: &Joint) -> bool
    ensures { result ≡ (rows_check joint.now).1 }
{
    if !is_row_count(first_rows(joint.face.rows) as usize) {
        return false;
    }
    if is_two_faced(joint.face.rows) {
        return is_row_count(joint.other.rows as usize);
    }
    true
}

// Whether the levers past so many rows are 0. They come by value: behind a reference no proof knows that they are eight.
fn is_spare_zero(rows: u32, levers: [u32; 8]) -> bool
    requires { rows ≤ 8 }
    ensures { result ≡ all_zero (drop rows levers) }
{
    all_zero(&levers[rows as usize..])
}

// Refusal 6's question of each face that a joint has: whether its spare levers are 0.
#[tactic(auto, using(crate::proofs::Faces::first_rows_few, crate::proofs::Faces::second_rows_few), unfolding(joint::specs::Faces::first_face))]
fn has_zero_spares(joint: &Joint) -> bool
    requires { (rows_check joint.now).1 ≡ true }
    ensures { result ≡ (spare_check joint.now).1 }
{
    let count = joint.face.rows;
    if !is_spare_zero(first_rows(count), joint.face.levers) {
        return false;
    }
    if is_two_faced(count) {
        return is_spare_zero(joint.other.rows, joint.other.levers);
    }
    true
}

// Writes the file of a joint whose row counts and spare levers are right. It comes by value: of the levers of a joint behind a reference no
// proof knows that they are eight. And the levers are copied: to lend a part of a field of a joint by value copies the whole face.
fn write_parts(joint: Joint, buffer: &mut [u8]) -> Result<usize, WriteRefusal>
    requires { (rows_check joint).1 ≡ true }
    ensures { written_meaning result buffer.new ≡ writing_if_room (file New joint) buffer.old }
{
    let face = joint.face;
    let eight = face.levers;
    let rows = first_rows(face.rows) as usize;
    let levers = &eight[..rows];
    let fields = fields_of(joint.column, joint.bolts, face);
    if is_two_faced(face.rows) {
        let other = joint.other;
        let other_eight = other.levers;
        let other_rows = other.rows as usize;
        let other_levers = &other_eight[..other_rows];
        let own = own_of(fields_of(joint.column, joint.bolts, other));
        return put_file(&fields, levers, &own, other_levers, buffer);
    }
    put_file(&fields, levers, &[], &[], buffer)
}

// Writes a joint's file, of the new kind, to the front of the buffer, and answers its length. Each refusal is tried on both faces before
// the next.
#[tactic(auto, using(crate::proofs::Answers::writing_rows, crate::proofs::Answers::writing_spare, crate::proofs::Answers::writing_file))]
pub fn write(joint: Joint, buffer: &mut [u8]) -> Result<usize, WriteRefusal>
    ensures { written_meaning result buffer.new ≡ writing joint buffer.old }
{
    if !has_row_counts(&joint) {
        return Err(WriteRefusal::RowCount);
    }
    if !has_zero_spares(&joint) {
        return Err(WriteRefusal::SpareLever);
    }
    write_parts(joint, buffer)
}
