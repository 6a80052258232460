// What the programs need of the machine beside std: rooms to read into and write from, and a read of
// up to a room's length.
#![tactic(auto)]

ghost use Rattle.std.specs.Prelude.{◌≡◌, ◌<◌, ℕ, length, take, replicate, IfOk, OnErr};
ghost use Rattle.std.specs.Io.{ReadsAtMost};
ghost use Rattle.std.specs.Io.KnownBytes.{Consumes, IsAtEnd};

use std::io;
use std::io::Read;

// Room for a short text.
pub fn buffer() -> [u8; 4096]
    ensures { (4096 ≡ length result) × (result ≡ replicate 4096 0) }
{
    [0; 4096]
}

// Room for standard input, or for what is written of it.
pub fn large_buffer() -> [u8; 65536]
    ensures { (65536 ≡ length result) × (result ≡ replicate 65536 0) }
{
    [0; 65536]
}

// Reads until the room is full or the input ends, and returns how many bytes it put at the front of
// the room: fewer than the room has only at the end. The first read that fails ends it, and its error
// is returned; what was taken from the reader until then stands at the front of the room.
pub fn read_full<R: Read>(from: &mut R, room: &mut [u8]) -> io::Result<usize>
    ensures fits { ReadsAtMost result room.new }
    ensures bytes { IfOk result (λ n. Consumes (R.remaining from.old) (R.remaining from.new) (take n room.new)) }
    ensures end { IfOk result (λ n. n < length room.new → IsAtEnd (R.remaining from.new)) }
    ensures err { OnErr result ((n : ℕ) × (n < length room.new) × Consumes (R.remaining from.old) (R.remaining from.new) (take n room.new)) }
{
    let mut done = 0;
    while done < room.len() {
        let n = from.read(&mut room[done..])?;
        if n == 0 {
            return Ok(done);
        }
        done += n;
    }
    Ok(done)
}
