// Room for standard input and for an answer, and standard input itself.
#![tactic(auto)]

ghost use Rattle.std.specs.Prelude.{◌≡◌, ◌≤◌, length, replicate, IfOk};

use std::io;
use std::io::Read;

// So many bytes, each 0. (A function: of an array that a caller makes, its proof would count the elements.)
pub fn room<const N: usize>() -> [u8; N]
    ensures { result ≡ replicate N 0 }
{
    [0u8; N]
}

// Standard input, as far as the buffer has room for it: how many bytes there are at its start.
pub fn fill(rt: &impl Input, buffer: &mut [u8]) -> io::Result<usize>
    ensures { IfOk result (λ n. n ≤ length buffer.new) }
{
    let room = buffer.len();
    let mut rest = buffer;
    let n = io::copy(&mut rt.reader().take(room as u64), &mut rest)?;
    Ok(room.min(n as usize))
}
