// The words of a line, between blanks, and what a word says as a number. Nothing here is checked: a word that is not there is empty, a byte
// that is no digit counts as some digit, and a number too large wraps.
#![tactic(auto)]

ghost use Rattle.std.specs.Prelude.{◌≡◌, ◌%◌, ◌^◌, [], drop, slice_index_or};
ghost use Rattle.std.specs.List.{list_any};
ghost use Rattle.std.specs.Str.{bytes_eq};
ghost use Rattle.pieces.specs.Pieces.{words, after_of, value_of};

// The word after so many others.
pub fn word(line: &[u8], k: usize) -> &[u8]
    ensures { result.now ≡ slice_index_or (words line.now) k [] }
{
    line.split(|b| *b == b' ').nth(k).unwrap_or(&[])
}

// Whether a name is among the words after the first so many.
pub fn has(line: &[u8], from: usize, name: &[u8]) -> bool
    ensures { result ≡ list_any (λ w. bytes_eq w name.now) (drop from (words line.now)) }
{
    line.split(|b| *b == b' ').skip(from).any(|w| w == name)
}

// The word after a name, the first there after so many words.
pub fn after<'a>(line: &'a [u8], from: usize, name: &[u8]) -> &'a [u8]
    ensures { result.now ≡ after_of name.now (drop from (words line.now)) }
{
    line.split(|b| *b == b' ')
        .skip(from)
        .skip_while(|w| *w != name)
        .nth(1)
        .unwrap_or(&[])
}

// What a word says in decimal, modulo 2^64.
pub fn value(w: &[u8]) -> u64
    ensures { result ≡ value_of w.now % 2 ^ 64 }
{
    w.iter().fold(
        0u64,
        |n, b| n.wrapping_mul(10).wrapping_add(u64::from(*b % 16)),
    )
}
