// The program plate: reads standard input, and writes what `plate_text` says.
#![tactic(auto)]

ghost use Rattle.std.specs.Prelude.{IfSome, OnOk, take};
ghost use Rattle.std.specs.Io.KnownBytes.{Appends};
ghost use Rattle.definition.specs.Plate.{plate_of};

use program_input::read_full;
use std::io;
use std::io::{Read, Write};

// The bytes read at most, more than the longest map text that is read has.
const INPUT_LIMIT: usize = 65536;

// Reads an input, and writes what `plate_text` says of it.
fn run<R: Read, W: Write>(input: &mut R, out: &mut W) -> io::Result<()>
    ensures { OnOk result (IfSome (R.remaining input.old) (λ bytes.
        Appends (W.contents out.old) (W.contents out.new) (plate_of (take 65536 bytes)))) }
{
    let mut bytes = [0u8; INPUT_LIMIT];
    let n = read_full(input, &mut bytes)?;
    let text = program_texts::plate_text(&bytes[..n]);
    out.write_all(text.as_bytes())
}

fn main(rt: HostRuntime) -> io::Result<()> {
    run(&mut rt.stdin(), &mut rt.stdout())
}
