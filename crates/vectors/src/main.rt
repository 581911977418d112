// The program `vectors`: runs the open calls on stored vectors, a line of text each (docs/vectors.md), and compares what they answer with
// what the line says. Prints how many ran and how many came out as expected under each heading, and each that didn't by its line. An input
// or an output that fails is said on standard error.
#![tactic(auto)]

use compare::Difference;
use input::{read_whole, space};
use jointfile::FileKind;
use progress::{Output, Progress};
use reader::{Items, Sides};
use std::io;
use std::io::Write;

mod compare;
mod files;
mod joints;
mod limits;
mod printed;
mod progress;
mod reader;
mod tables;

const MOST_INPUT: usize = 2097152;

// One byte more than there may be, so that an input that is too long is seen to be.
const INPUT_SPACE: usize = MOST_INPUT + 1;

// Runs the call that a line names.
fn run_line(line: &[u8], sides: &mut Sides) -> Result<(), Difference> {
    let count = line.iter().take_while(|byte| **byte != b' ').count();
    let (word, after) = line.split_at(count);
    let mut items = Items::new(after);
    let items = &mut items;
    match word {
        b"allocate" => limits::run(items, sides),
        b"cell" => printed::run_cell(items, sides),
        b"exception" => printed::run_exception(items, sides),
        b"load" => tables::run_load(items, sides),
        b"own" => tables::run_own(items, sides),
        b"old" => files::run_read(items, sides, FileKind::Old),
        b"read" => files::run_read(items, sides, FileKind::New),
        b"shear" => printed::run_shear(items, sides),
        b"work" => joints::run(items, sides),
        b"write" => files::run_write(items, sides),
        _ => Err(Difference::Unreadable),
    }
}

// The lines of the input, each by its first byte: nothing, a heading, a note, or else a vector.
fn run_all<W: Write>(text: &[u8], out: &mut W) -> io::Result<()> {
    let mut progress = Progress::new();
    let mut sides = Sides::new();
    let mut out = Output {
        out,
        written: Ok(()),
    };
    for line in text.split(|byte| *byte == b'\n') {
        progress.next_line();
        match line.first() {
            None | Some(b'/') => {}
            Some(b'#') => progress.heading(&mut out, line)?,
            Some(_) => progress.vector(&mut out, run_line(line, &mut sides))?,
        }
    }
    progress.finish(&mut out)?;
    out.written
}

fn main(rt: HostRuntime) {
    let mut text = space::<INPUT_SPACE>();
    let Ok(size) = read_whole(&mut rt.stdin(), &mut text) else {
        let _told = eprintln!(rt;
            "vectors: the input could not be read to its end; nothing is run"
        );
        return;
    };
    if MOST_INPUT < size {
        let _told = eprintln!(rt;
            "vectors: the input is longer than {MOST_INPUT} bytes; nothing is run"
        );
        return;
    }
    if run_all(&text[..size], &mut rt.stdout()).is_err() {
        let _told = eprintln!(rt; "vectors: the output could not be written whole");
    }
}
