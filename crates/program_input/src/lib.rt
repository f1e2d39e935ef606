// What the programs read: an input, into a buffer that is lent (`read_full`).
#![tactic(auto)]

ghost use Rattle.std.specs.Prelude.{◌≡◌, ◌≤◌, IfOk, IfSome, length, take};

use std::io;
use std::io::Read;

// Reads until the buffer is full or the input ends, and returns how many bytes it read.
pub fn read_full<R: Read>(input: &mut R, buf: &mut [u8]) -> io::Result<usize>
    ensures bound { IfOk result (λ n. n ≤ length buf.new) }
    ensures bytes { IfOk result (λ n. IfSome (R.remaining input.old) (λ bytes.
        take n buf.new ≡ take (length buf.new) bytes)) }
{
    let mut at = 0;
    while at < buf.len() {
        let n = input.read(&mut buf[at..])?;
        if n == 0 {
            return Ok(at);
        }
        at += n;
    }
    Ok(at)
}
