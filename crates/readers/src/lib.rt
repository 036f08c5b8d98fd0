// Reads of an input whose length is not known.
#![tactic(auto)]

ghost use Rattle.std.specs.Prelude.{◌<◌, length, take, IfOk};
ghost use Rattle.std.specs.Io.{ReadsAtMost};
ghost use Rattle.std.specs.Io.KnownBytes.{Consumes, IsAtEnd};

use std::io;
use std::io::Read;

// Reads until `to` is full or the input ends, and returns how many bytes it put at the start of `to`.
pub fn read_full<R: Read>(from: &mut R, to: &mut [u8]) -> io::Result<usize>
    ensures bound { ReadsAtMost result to.new }
    ensures bytes { IfOk result (λ n. Consumes (R.remaining from.old) (R.remaining from.new) (take n to.new)) }
    ensures end { IfOk result (λ n. n < length to.new → IsAtEnd (R.remaining from.new)) }
{
    // Kept: std's `read_exact` is an error at the end, and says nothing of the bytes before it.
    let mut done = 0;
    while done < to.len() {
        let n = from.read(&mut to[done..])?;
        if n == 0 {
            break;
        }
        done += n;
    }
    Ok(done)
}
