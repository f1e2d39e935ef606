// The program convert: reads standard input, and writes what `convert_text` says.
#![tactic(auto)]

ghost use Rattle.std.specs.Prelude.{IfSome, OnOk, take};
ghost use Rattle.std.specs.Io.KnownBytes.{Appends};
ghost use Rattle.definition.specs.Convert.{convert_of};

use program_input::read_full;
use std::io;
use std::io::{Read, Write};

// The bytes read at most, one more than the longest map text has: enough to tell that an input is none.
const INPUT_LIMIT: usize = 262149;

// Reads an input, and writes what `convert_text` says of it.
fn run<R: Read, W: Write>(input: &mut R, out: &mut W) -> io::Result<()>
    ensures { OnOk result (IfSome (R.remaining input.old) (λ bytes.
        Appends (W.contents out.old) (W.contents out.new) (convert_of (take 262149 bytes)))) }
{
    let mut bytes = [0u8; INPUT_LIMIT];
    let n = read_full(input, &mut bytes)?;
    let text = program_texts::convert_text(&bytes[..n]);
    out.write_all(text.as_bytes())
}

fn main(rt: HostRuntime) -> io::Result<()> {
    run(&mut rt.stdin(), &mut rt.stdout())
}
