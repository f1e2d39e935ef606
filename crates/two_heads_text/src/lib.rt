// What the program `two_heads` prints, as a function from bytes to bytes (`two_heads_text`).
#![tactic(auto)]

ghost use Rattle.std.specs.Prelude.{◌≡◌, ◌≤◌, length, take};
ghost use Rattle.heads.specs.TwoHeads.{two_heads_list, two_heads_text};
ghost use Rattle.program_texts.specs.Promised.{Answered};
ghost use Rattle.program_texts.specs.Finished.{MapAsked};

use definition::Refusal;
use program_texts::{LIST_MOST, PLAIN, Text};

// The list of all holes of a map, or the refusal of a side that has no room for macroblocks.
fn put_list(side: u32, greys: &[u8], out: &mut [u8]) -> Result<usize, Refusal>
    requires { MapAsked side greys.now 1365 1024 1024 × (11300 ≤ length out.old) }
    ensures { Answered (two_heads_list side greys.now) out.old result out.new }
{
    let mut pyramid = [0i64; 1365];
    let mut serials = [0u32; 1024];
    let mut order = [0u32; 1024];
    let run = laser::two_heads(side, PLAIN, greys, &mut pyramid, &mut serials, &mut order)?;
    drill_list::drill_list(run.progress, &pyramid, &serials, &order, out)
}

// What `two_heads` prints.
fn put_text(input: &[u8], out: &mut [u8]) -> Result<usize, Refusal>
    requires { 11300 ≤ length out.old }
    ensures { Answered (two_heads_text input.now) out.old result out.new }
{
    if 4099 < input.len() {
        return Err(Refusal::InputLong);
    }
    let mut greys = [0u8; 1024];
    let side = map_text::map_text(input, &mut greys)?;
    put_list(side, &greys, out)
}

// What `two_heads` prints (S 14.6).
pub fn two_heads_text(input: &[u8]) -> Text<LIST_MOST>
    ensures { take result.length result.bytes ≡ two_heads_text input.now }
{
    let mut bytes = [0; LIST_MOST];
    let answer = put_text(input, &mut bytes);
    let length = program_texts::put_answer(&mut bytes, answer);
    Text { bytes, length }
}
