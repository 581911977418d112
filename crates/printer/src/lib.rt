// The sheet (rules 12): joint files end to end in, a line out for each face, or one for a refusal. Each joint is read once, worked once and
// put straight into the caller's buffer; the input is walked by what is left after each joint. Only where the output may be too short are
// the lines measured first, since such an output stays as it was.
#![tactic(auto)]

ghost use Rattle.std.specs.Prelude.{◌≤◌, ◌≡◌, [], ◌∷◌, leb, length};
ghost use Rattle.buffers.specs.Put.{Put};
ghost use Rattle.numbers.specs.Number.{Bytes};
ghost use Rattle.line.specs.Line.{concatenated};
ghost use Rattle.printer.specs.Sheet.{most_input, joint_lines, lines_of, over_long, sheet_of};
ghost use Rattle.printer.specs.Answers.{printing, printed_meaning, most_printed};

use buffers::Writer;
use items::{Counter, Sink};
use joint::{Joint, first_rows};
use jointfile::{FileKind, LEAST_TWO_FACED, read};
use line::{MOST_LINE, put_outcome, put_read_refusal};

// Joints count from 1.
const FIRST: u64 = 1;

// Of a longer input no joint is read: its sheet is `R 4`.
pub const MOST_INPUT: usize = 65536;

// No line takes fewer bytes of input, but that of what is left: two lines take the shortest file of two faces.
const LEAST_PER_LINE: usize = LEAST_TWO_FACED / 2;

// No sheet is longer: `most_printed` of the longest input, written out since a constant's value can't be a call yet.
pub const MOST_SHEET: usize = (MOST_INPUT + (LEAST_PER_LINE - 1)) / LEAST_PER_LINE * MOST_LINE;

// There is no room for all lines.
#[derive(Clone, Copy, PartialEq, Eq, Debug)]
pub struct NoRoom;

// Prints the sheet of the input to the front of the output, and answers how many bytes it takes. Where it doesn't fit whole, the output is
// as it was.
pub fn sheet(input: &[u8], output: &mut [u8]) -> Result<usize, NoRoom>
    ensures { printed_meaning result output.new ≡ printing (sheet_of input.now) output.old }
{
    if MOST_INPUT < input.len() {
        return print_over_long(output);
    }
    SheetInput { bytes: input }.print(output)
}

// `R 4`, and nothing else.
fn print_over_long(output: &mut [u8]) -> Result<usize, NoRoom>
    ensures { printed_meaning result output.new ≡ printing (concatenated (over_long ∷ [])) output.old }
{
    if output.len() < 4 {
        return Err(NoRoom);
    }
    output[..4].copy_from_slice(b"R 4\n");
    Ok(4)
}

// No sheet of `count` bytes of input is longer: a line for each `LEAST_PER_LINE` of them, and one for what is left.
fn most_printed(count: usize) -> usize
    requires { count ≤ most_input }
    ensures { result ≡ most_printed count }
{
    (count + (LEAST_PER_LINE - 1)) / LEAST_PER_LINE * MOST_LINE
}

// An input whose joints are read: it isn't too long.
#[derive(Clone, Copy)]
struct SheetInput<'a> {
    bytes: &'a [u8],
    ghost few: { length bytes.now ≤ most_input },
    ghost fit: { Bytes bytes.now },
}

impl SheetInput<'_> {
    fn print(self, output: &mut [u8]) -> Result<usize, NoRoom>
        ensures { printed_meaning result output.new
            ≡ printing (concatenated (lines_of 1 self.entry.bytes.now)) output.old }
    {
        if !self.has_room(output.len()) {
            return Err(NoRoom);
        }
        Ok(self.put_lines(output))
    }

    // Puts all lines to the front of the output, and answers their size.
    fn put_lines(self, output: &mut [u8]) -> usize
        requires { length (concatenated (lines_of 1 self.bytes.now)) ≤ length output.old }
        ensures { Put output.old 0 (concatenated (lines_of 1 self.entry.bytes.now)) output.new result }
    {
        let mut writer = Writer::new(output);
        self.put_joints(&mut writer);
        writer.at
    }

    // Whether so many places hold the lines. Only an output that is shorter than the longest sheet of so many bytes asks for measuring.
    fn has_room(self, room: usize) -> bool
        ensures { result ≡ leb (length (concatenated (lines_of 1 self.entry.bytes.now))) room }
    {
        most_printed(self.bytes.len()) <= room || self.lines_size() <= room
    }

    // The size of all lines.
    fn lines_size(self) -> usize
        ensures { result ≡ length (concatenated (lines_of 1 self.entry.bytes.now)) }
    {
        let mut counter = Counter { count: 0 };
        self.put_joints(&mut counter);
        counter.count
    }

    // Hands over all lines. A joint that can't be read is the last. Not by `for`: where the next joint begins is known once the one before
    // is read.
    fn put_joints<S: Sink>(self, sink: &mut S)
        requires { S.has_room sink.old (concatenated (lines_of 1 self.bytes.now)) }
        ensures { S.takes sink.old (concatenated (lines_of 1 self.entry.bytes.now)) sink.new }
    {
        let mut left = self.bytes;
        let mut number = FIRST;
        while !left.is_empty() {
            match read(left, FileKind::New) {
                Ok(reading) => {
                    put_joint(sink, number, &reading.joint);
                    left = &left[reading.next..];
                    number += 1;
                }
                Err(refusal) => return put_read_refusal(sink, number, refusal),
            }
        }
    }
}

// Works a joint with the bolts built in, and hands over its lines. Rows are shown without the mark of a second face.
fn put_joint<S: Sink>(sink: &mut S, number: u64, joint: &Joint)
    requires { S.has_room sink.old (concatenated (joint_lines number joint.now)) }
    ensures { S.takes sink.old (concatenated (joint_lines number joint.now)) sink.new }
{
    let outcome = work::work(&bolttable::built_in(), joint);
    put_outcome(
        sink,
        number,
        first_rows(joint.face.rows),
        joint.other.rows,
        outcome,
    );
}
