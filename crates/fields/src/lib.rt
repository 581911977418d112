// A joint's fields before the levers, in file order: the joint that has them, and those of a joint. Of the first face, with which the
// column and the bolts stand, field k is at place k - 1. The second face has 1, 2, 6, 7 and 14 to 29 of its own, one after another.
#![tactic(auto)]

ghost use Rattle.std.specs.Prelude.{◌≡◌, ◌≤◌, length};
ghost use Rattle.fields.specs.Fields.{field_count, axial_of, stored_axial, column_of, bolts_of, beam_of, plate_of, layout_of, welds_of};
ghost use Rattle.fields.specs.Fields.{loads_of, face_of, first_face_of, joint_of, fields_of, own_of};
ghost use Rattle.fields.specs.Places.{PlacesWithin};

use joint::{Beam, Bolts, Column, Face, Joint, Layout, Loads, Plate, Welds};

// How many fields stand before the levers: 1 to 30.
pub const FIELD_COUNT: usize = 30;

// How many of them a second face has of its own: 1, 2, 6, 7 and 14 to 29.
pub const OWN_COUNT: usize = 20;

// The axial force that a number of the file stands for.
#[tactic(auto, unfolding(crate::specs::Fields::axial_of))]
fn axial_of(x: u32) -> i32
    ensures { result ≡ axial_of x }
{
    let half = (x / 2).cast_signed();
    if x % 2 == 0 { half } else { -1 - half }
}

// The number that an axial force is stored as. Twice the size of the least force of 32 bits would wrap, twice one less doesn't.
#[tactic(auto, using(crate::proofs::Axial::stored_by_sign))]
pub fn stored_axial(axial: i32) -> u32
    ensures { result ≡ stored_axial axial }
{
    let size = axial.unsigned_abs();
    if axial < 0 {
        2 * (size - 1) + 1
    } else {
        2 * size
    }
}

// Fields 5, 8 to 13 and 30.
pub fn column_of(fields: &[u32]) -> Column
    requires { field_count ≤ length fields.now }
    ensures { result ≡ column_of fields.now }
{
    Column {
        grade: fields[4],
        depth: fields[7],
        width: fields[8],
        flange: fields[9],
        web: fields[10],
        radius: fields[11],
        clear: fields[12],
        end_distance: fields[29],
    }
}

// Fields 3 and 4.
pub fn bolts_of(fields: &[u32]) -> Bolts
    requires { field_count ≤ length fields.now }
    ensures { result ≡ bolts_of fields.now }
{
    Bolts {
        class: fields[2],
        diameter: fields[3],
    }
}

// A face's part of the file: its numbers, fields 1 and 2 first, and among them the places of field 6, with 7 after it, and of field 14,
// with 15 to 29 after it. It has places, and not a part for each run of fields, since the rule's definition goes by them too.
#[derive(Clone, Copy)]
pub struct FacePart<'a> {
    pub numbers: &'a [u32],
    pub sixth: usize,
    pub fourteenth: usize,
    ghost within: { PlacesWithin numbers.now sixth fourteenth },
}

impl FacePart<'_> {
    fn beam(&self) -> Beam
        ensures { result ≡ beam_of self.now.numbers.now self.now.sixth self.now.fourteenth }
    {
        let at = self.fourteenth;
        Beam {
            grade: self.numbers[self.sixth],
            depth: self.numbers[at],
            width: self.numbers[at + 1],
            flange: self.numbers[at + 2],
            web: self.numbers[at + 3],
        }
    }

    fn plate(&self) -> Plate
        ensures { result ≡ plate_of self.now.numbers.now self.now.sixth self.now.fourteenth }
    {
        Plate {
            grade: self.numbers[self.sixth + 1],
            width: self.numbers[self.fourteenth + 4],
            thickness: self.numbers[self.fourteenth + 5],
        }
    }

    fn layout(&self) -> Layout
        ensures { result ≡ layout_of self.now.numbers.now self.now.fourteenth }
    {
        Layout {
            gauge: self.numbers[self.fourteenth + 6],
            edge: self.numbers[self.fourteenth + 7],
            alpha: self.numbers[self.fourteenth + 8],
        }
    }

    fn welds(&self) -> Welds
        ensures { result ≡ welds_of self.now.numbers.now self.now.fourteenth }
    {
        Welds {
            flange: self.numbers[self.fourteenth + 9],
            web: self.numbers[self.fourteenth + 10],
            length: self.numbers[self.fourteenth + 11],
        }
    }

    fn loads(&self) -> Loads
        ensures { result ≡ loads_of self.now.numbers.now self.now.fourteenth }
    {
        Loads {
            axial: axial_of(self.numbers[self.fourteenth + 13]),
            shear: self.numbers[self.fourteenth + 14],
            moment: self.numbers[self.fourteenth + 15],
        }
    }

    // The face that the part tells, with its levers.
    pub fn face(&self, levers: [u32; 8]) -> Face
        ensures { result ≡ face_of self.now.numbers.now self.now.sixth self.now.fourteenth levers }
    {
        Face {
            rows: self.numbers[0],
            extended: self.numbers[1],
            beam: self.beam(),
            plate: self.plate(),
            layout: self.layout(),
            welds: self.welds(),
            shear_rows: self.numbers[self.fourteenth + 12],
            loads: self.loads(),
            levers,
        }
    }
}

// The first face among fields 1 to 30, with its levers.
pub fn first_face_of(fields: &[u32; FIELD_COUNT], levers: [u32; 8]) -> Face
    ensures { result ≡ first_face_of fields.now levers }
{
    FacePart {
        numbers: fields,
        sixth: 5,
        fourteenth: 13,
    }
    .face(levers)
}

// The joint that has these fields before the levers, and these levers; its second face has these numbers of its own, and these levers.
#[tactic(auto, unfolding(crate::specs::Fields::joint_of))]
pub fn joint_of(
    fields: [u32; FIELD_COUNT],
    levers: [u32; 8],
    own: [u32; OWN_COUNT],
    other_levers: [u32; 8],
) -> Joint
    ensures { result ≡ joint_of fields levers own other_levers }
{
    let second = FacePart {
        numbers: &own,
        sixth: 2,
        fourteenth: 4,
    };
    Joint {
        column: column_of(&fields),
        bolts: bolts_of(&fields),
        face: first_face_of(&fields, levers),
        other: second.face(other_levers),
    }
}

// The fields of a column, its bolts and one face before the levers.
#[tactic(auto, unfolding(crate::specs::Fields::fields_of))]
pub fn fields_of(column: Column, bolts: Bolts, face: Face) -> [u32; FIELD_COUNT]
    ensures { result ≡ fields_of column bolts face }
{
    [
        face.rows,
        face.extended,
        bolts.class,
        bolts.diameter,
        column.grade,
        face.beam.grade,
        face.plate.grade,
        column.depth,
        column.width,
        column.flange,
        column.web,
        column.radius,
        column.clear,
        face.beam.depth,
        face.beam.width,
        face.beam.flange,
        face.beam.web,
        face.plate.width,
        face.plate.thickness,
        face.layout.gauge,
        face.layout.edge,
        face.layout.alpha,
        face.welds.flange,
        face.welds.web,
        face.welds.length,
        face.shear_rows,
        stored_axial(face.loads.axial),
        face.loads.shear,
        face.loads.moment,
        column.end_distance,
    ]
}

// Of fields 1 to 30 those that a second face has of its own.
#[tactic(auto, unfolding(crate::specs::Fields::own_of))]
pub fn own_of(fields: [u32; FIELD_COUNT]) -> [u32; OWN_COUNT]
    ensures { result ≡ own_of fields }
{
    [
        fields[0], fields[1], fields[5], fields[6], fields[13], fields[14], fields[15], fields[16],
        fields[17], fields[18], fields[19], fields[20], fields[21], fields[22], fields[23],
        fields[24], fields[25], fields[26], fields[27], fields[28],
    ]
}
