// Bytes of a slice. A place past its end reads as 0.
// Kept: `byte` stands in files too: neither of the two crates rests on the other, and `text` below both knows characters alone.
#![tactic(auto, unfolding(crate::specs::Bytes::capped, text::specs::Choose::if_lt, text::specs::Choose::if_so))]

ghost use Rattle.std.specs.Prelude.{◌≡◌, ◌+◌, ◌*◌, ◌<◌, ◌^◌};
ghost use Rattle.wire.specs.Bytes.{byte_at, big_at, capped};

pub fn byte(s: &[u8], i: usize) -> u8
    ensures { result ≡ byte_at s.now i }
{
    s.get(i).copied().unwrap_or(0)
}

// A further byte of a length; the largest number stands for all that 64 bits cannot hold.
fn longer(high: usize, low: u8) -> usize
    ensures { result ≡ capped (high * 256 + low) }
{
    high.saturating_mul(256).saturating_add(usize::from(low))
}

// A length in k bytes, the greatest first.
pub fn big(s: &[u8], i: usize, k: usize) -> usize
    requires { i + k < 2 ^ 64 }
    ensures { result ≡ capped (big_at s.now i k) }
{
    let mut len = 0;
    for j in 0..k {
        len = longer(len, byte(s, i + j));
    }
    len
}

// The byte k places after i, for any i.
pub fn byte_past(s: &[u8], i: usize, k: usize) -> u8
    ensures { result ≡ byte_at s.now (i + k) }
{
    byte(s, i.saturating_add(k))
}
