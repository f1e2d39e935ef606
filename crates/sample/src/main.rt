// The program sample: writes what `sample_text` says.
#![tactic(auto)]

ghost use Rattle.std.specs.Prelude.{OnOk};
ghost use Rattle.std.specs.Io.KnownBytes.{Appends};
ghost use Rattle.definition.specs.Sample.{sample_text};

use std::io;
use std::io::Write;

// Writes what `sample_text` says.
fn run<W: Write>(out: &mut W) -> io::Result<()>
    ensures { OnOk result (Appends (W.contents out.old) (W.contents out.new) sample_text) }
{
    let text = program_texts::sample_text();
    out.write_all(text.as_bytes())
}

fn main(rt: HostRuntime) -> io::Result<()> {
    run(&mut rt.stdout())
}
