// A joint as words, and back. Field k of the first face stands at place k - 1, and its levers follow; then come the fields that a second
// face has of its own, and its levers.
ghost use Rattle.std.specs.Prelude.{◌≡◌, ◌≤◌, ◌<◌, ◌+◌, length};
ghost use Rattle.buffers.specs.Put.{at_front};
ghost use Rattle.joint.specs.Faces.{two_faced};
ghost use Rattle.fields.specs.Fields.{stored_axial};
ghost use Rattle.words.specs.Words.{joint_word_count, axial_of_word};
ghost use Rattle.words.specs.Words.{words_from, fields_of_words, joint_of_words, head_of, words_of};

use crate::lent::LentWords;
use fields::{FIELD_COUNT, OWN_COUNT};
use joint::{Bolts, Column, Face, Joint};

// How many words the fields with the first face's eight levers are, and how many a joint is: with those that a second face has of its own
// and its eight levers.
const FIRST_WORDS: usize = FIELD_COUNT + 8;

const OTHER_LEVERS: usize = FIRST_WORDS + OWN_COUNT;

pub const JOINT_WORDS: usize = OTHER_LEVERS + 8;

// The places of N, field 27, among the fields and among those of a second face's own.
const AXIAL: usize = 26;

const OWN_AXIAL: usize = 17;

// The number that the file stores for the axial force of a word.
fn stored_of(word: u32) -> u32
    ensures { result ≡ stored_axial (axial_of_word word) }
{
    fields::stored_axial(word.cast_signed())
}

// A joint without its second face.
#[derive(Clone, Copy)]
pub struct OneFaced {
    pub column: Column,
    pub bolts: Bolts,
    pub face: Face,
}

// The words of a joint.
pub type JointWords<'a> = LentWords<'a, JOINT_WORDS>;

impl JointWords<'_> {
    pub fn joint(self) -> Joint
        ensures { result ≡ joint_of_words self.entry.words.now }
    {
        let words = self.words;
        fields::joint_of(
            self.fields(0, AXIAL),
            words[FIELD_COUNT..FIRST_WORDS].try_into().unwrap(),
            self.fields(FIRST_WORDS, OWN_AXIAL),
            words[OTHER_LEVERS..JOINT_WORDS].try_into().unwrap(),
        )
    }

    // Whether there is a second face, by field 1.
    pub fn is_two_faced(self) -> bool
        ensures { result ≡ two_faced (joint_of_words self.entry.words.now).face.rows }
    {
        joint::is_two_faced(self.words[0])
    }

    // The joint without a second face: of its words nothing is read.
    pub fn one_faced(self) -> OneFaced
        ensures { let joint = joint_of_words self.entry.words.now in
            (result.column ≡ joint.column) × (result.bolts ≡ joint.bolts) × (result.face ≡ joint.face) }
    {
        let fields = self.fields::<FIELD_COUNT>(0, AXIAL);
        let words = self.words;
        OneFaced {
            column: fields::column_of(&fields),
            bolts: fields::bolts_of(&fields),
            face: fields::first_face_of(
                &fields,
                words[FIELD_COUNT..FIRST_WORDS].try_into().unwrap(),
            ),
        }
    }

    // So many fields as the file stores them, from the word at `from` on: N is the one at `axial` among them.
    fn fields<const COUNT: usize>(self, from: usize, axial: usize) -> [u32; COUNT]
        requires { (from + COUNT ≤ joint_word_count) × (axial < COUNT) }
        ensures { result ≡ fields_of_words axial (words_from from COUNT self.entry.words.now) }
    {
        let mut fields: [u32; COUNT] = self.words[from..from + COUNT].try_into().unwrap();
        fields[axial] = stored_of(fields[axial]);
        fields
    }
}

// The words before a face's levers: the fields, with N as a word.
fn head_of(column: Column, bolts: Bolts, face: Face) -> [u32; FIELD_COUNT]
    ensures { result ≡ head_of column bolts face }
{
    let mut head = fields::fields_of(column, bolts, face);
    head[AXIAL] = face.loads.axial.cast_unsigned();
    head
}

// Puts a joint's words at the front of a slice.
pub fn put_joint(joint: Joint, words: &mut [u32])
    requires { joint_word_count ≤ length words.old }
    ensures { words.new ≡ at_front (words_of joint) words.old }
{
    let head = head_of(joint.column, joint.bolts, joint.face);
    let own = fields::own_of(head_of(joint.column, joint.bolts, joint.other));
    words[..FIELD_COUNT].copy_from_slice(&head);
    words[FIELD_COUNT..FIRST_WORDS].copy_from_slice(&joint.face.levers);
    words[FIRST_WORDS..OTHER_LEVERS].copy_from_slice(&own);
    words[OTHER_LEVERS..JOINT_WORDS].copy_from_slice(&joint.other.levers);
}
