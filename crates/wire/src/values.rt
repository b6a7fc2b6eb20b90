// What the contents of an element say: an operation or error, a number, a duration. Every function is total.
#![tactic(auto, unfolding(crate::specs::Values::module_by, crate::specs::Values::module_at, crate::specs::Values::listed_of, crate::specs::Values::listed_at, crate::specs::Values::paired_of, crate::specs::Values::counted_of, crate::specs::Values::natured_of, crate::specs::Values::digited_of, crate::specs::Values::party_by, crate::specs::Values::party_of, crate::specs::Values::there_of, crate::specs::Values::clock_of, crate::specs::Values::clock_at, crate::specs::Values::seconds_at, crate::specs::Values::problem_tag, text::specs::Choose::if_lt, text::specs::Choose::if_eq, text::specs::Choose::if_so))]

ghost use Rattle.std.specs.Prelude.{◌≡◌, ◌+◌, ◌*◌, ◌≤◌, ◌<◌, ◌^◌, length};
ghost use Rattle.wire.specs.Values.{module_at, listed_at, paired_of, pairs_at, counted_of, natured_of, digited_of, party_by, party_of, there_of, clock_at, seconds_at, problem_tag};

use crate::Number;
use crate::bytes::{byte, byte_past};

// Kept: absent for "is no number", here and below, and no Option: `party_of` and `there_of` of specs/Values.antt have it so.
pub const ABSENT: Number = Number { count: 0, value: 0 };

// ---- operations and errors

// The six bytes of 0.0.17.736.3.1.
fn module(s: &[u8], i: usize) -> bool
    ensures { result ≡ module_at s.now i }
{
    6 <= s.len() && i <= s.len() - 6 && matches!(&s[i..i + 6], [0, 17, 133, 96, 3, 1])
}

// The module's identifier, and after it a number from `low` to `high`.
pub fn listed(s: &[u8], i: usize, low: u8, high: u8) -> bool
    ensures { result ≡ listed_at s.now i low high }
{
    let n = byte_past(s, i, 6);
    module(s, i) && (low..=high).contains(&n)
}

// ---- numbers

// Two more digits, the first in the low half.
fn paired(v: u64, b: u8) -> Option<u64>
    requires { v < 10 ^ 16 }
    ensures { result ≡ paired_of v b }
{
    if 9 < b % 16 || 9 < b / 16 {
        None
    } else {
        Some(v * 100 + u64::from(b % 16 * 10 + b / 16))
    }
}

// The digits of a number's last m bytes, which are all there.
fn pairs(s: &[u8], i: usize, m: usize) -> Option<u64>
    requires { (m ≤ 8) × (i + (2 + m) ≤ length s.now) }
    ensures { result ≡ pairs_at s.now i m }
{
    // Kept: a count of pairs, as `pairs_at` of specs/Values.antt has it; `&s[i + 2..i + 2 + m]` in its place would be no plainer.
    let mut v = 0;
    for j in 0..m {
        v = paired(v, s[i + (2 + j)])?;
    }
    Some(v)
}

fn counted(m: u8, odd: bool, nature: u8, v: u64) -> Number
    requires { (m ≤ 8) × (nature ≤ 128) }
    ensures { result ≡ counted_of m odd nature v }
{
    match (m, odd) {
        (0, _) => ABSENT,
        (_, true) if v % 10 == 0 => Number {
            count: nature + (2 * m - 1),
            value: v / 10,
        },
        (_, true) | (8, false) => ABSENT,
        _ => Number {
            count: nature + 2 * m,
            value: v,
        },
    }
}

fn natured(m: u8, first: u8, second: u8, v: u64) -> Number
    requires { m ≤ 8 }
    ensures { result ≡ natured_of m first second v }
{
    match (second / 16, first % 128) {
        (1, 3) => counted(m, first / 128 == 1, 0, v),
        (1, 4) => counted(m, first / 128 == 1, 128, v),
        _ => ABSENT,
    }
}

fn digited(m: u8, first: u8, second: u8, d: Option<u64>) -> Number
    requires { m ≤ 8 }
    ensures { result ≡ digited_of m first second d }
{
    let Some(v) = d else {
        return ABSENT;
    };
    natured(m, first, second, v)
}

fn party_by(s: &[u8], i: usize, m: usize) -> Number
    requires { i + (2 + m) ≤ length s.now }
    ensures { result ≡ party_by s.now i m }
{
    if 8 < m {
        ABSENT
    } else {
        digited(m as u8, s[i], s[i + 1], pairs(s, i, m))
    }
}

// The number in the bytes from i to next; absent if that is none.
pub fn party(s: &[u8], i: usize, next: usize) -> Number
    ensures { result ≡ party_of s.now i next }
{
    if s.len() < next || next.saturating_sub(i) < 2 {
        ABSENT
    } else {
        party_by(s, i, next - i - 2)
    }
}

pub fn there(n: Number) -> bool
    ensures { result ≡ there_of n }
{
    n.count != 0
}

// ---- the duration

pub fn clock(s: &[u8], i: usize) -> bool
    ensures { result ≡ clock_at s.now i }
{
    byte_past(s, i, 1) < 60 && byte_past(s, i, 2) < 60
}

pub fn seconds(s: &[u8], i: usize) -> u32
    ensures { result ≡ seconds_at s.now i }
{
    u32::from(byte(s, i)) * 3600
        + u32::from(byte_past(s, i, 1)) * 60
        + u32::from(byte_past(s, i, 2))
}

// ---- one byte

// Kept: 128 for any other byte, and no Option: `problem_tag` of specs/Values.antt has a tag for each, which the grammar then asks for.
pub fn problem_tag(b: u8) -> u8
    ensures { result ≡ problem_tag b }
{
    if b / 4 == 32 { b } else { 128 }
}
