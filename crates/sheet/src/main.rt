// The program `sheet`: joint files end to end on standard input, a line for each face, or one for a refusal, on standard output. A sheet
// that was half read or half written must never look whole: an input that can't be read to its end prints no line, and either failure is
// said on standard error.
#![tactic(auto)]

ghost use Rattle.std.specs.Prelude.{◌≤◌, length};
ghost use Rattle.printer.specs.Answers.{most_sheet};
ghost use Rattle.sheet.specs.Whole.{Whole};

use input::{read_whole, space};
use printer::{MOST_INPUT, MOST_SHEET};
use std::io::Write;

// One byte more than a sheet takes, so that an input that is too long is seen to be.
const INPUT_SPACE: usize = MOST_INPUT + 1;

// Prints the sheet of the input, whole, to the front of the output. There is always room for it.
fn print_sheet(input: &[u8], output: &mut [u8]) -> usize
    requires { most_sheet ≤ length output.old }
    ensures { Whole input.now output.old output.new result }
{
    printer::sheet(input, output).unwrap_or(0)
}

fn main(rt: HostRuntime) {
    let mut input = space::<INPUT_SPACE>();
    let Ok(got) = read_whole(&mut rt.stdin(), &mut input) else {
        let _told = eprintln!(rt;
            "sheet: the input could not be read to its end; nothing is printed"
        );
        return;
    };
    let mut output = space::<MOST_SHEET>();
    let size = print_sheet(&input[..got], &mut output);
    if rt.stdout().write_all(&output[..size]).is_err() {
        let _told = eprintln!(rt;
            "sheet: the output could not be written whole; the lines above are not the whole sheet"
        );
    }
}
