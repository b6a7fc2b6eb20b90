// A component's line: its kind, its operation or error, its identifier, and its parts in bit order.
// Kept: a text is put by a function, here, in answers.rt and in hex.rt: a Display promises its text on Ok alone, `Wrote` always.
ghost use Rattle.std.specs.Prelude.{[], ◌++◌};
ghost use Rattle.text.specs.Choose.{if_so};
ghost use Rattle.text.specs.Page.{Wrote};
ghost use Rattle.text.specs.Text.{ascii, numbered};
ghost use Rattle.wireline.specs.Lines.{digits_text, counted_text, flags_text, values_text};
ghost use Rattle.wireline.specs.Lines.{operation_text, with_operation, head_text, id_text, line_in, line_text};

use crate::hex::put_octet;
use text::Page;
use wire::{Component, Number};

// The forms of a line's numbers, where each is said by its digits.
// Kept: a number for the forms, here and in guess.rt: `line_in` and `Right` of the definitions take it.
pub(crate) const DIGITS: u8 = 0;

// A word where its part is present.
fn put_if(page: &mut Page<'_>, present: bool, word: &[u8])
    ensures { Wrote (if_so present word.now []) page.old page.new }
{
    if present {
        page.word(word);
    }
}

// A number by its digits, as many as its count.
fn put_digits(page: &mut Page<'_>, n: Number)
    ensures { Wrote (digits_text n) page.old page.new }
{
    put_if(page, n.count / 128 == 1, b"+");
    page.digits(n.value, usize::from(n.count % 128));
}

// A number by its count and its value.
fn put_counted(page: &mut Page<'_>, n: Number)
    ensures { Wrote (counted_text n) page.old page.new }
{
    put_if(page, n.count / 128 == 1, b"+");
    page.decimal(u32::from(n.count % 128));
    page.put(b':');
    page.value(n.value);
}

fn put_number(page: &mut Page<'_>, counted: bool, n: Number)
    ensures { Wrote (if_so counted (counted_text n) (digits_text n)) page.old page.new }
{
    if counted {
        put_counted(page, n);
    } else {
        put_digits(page, n);
    }
}

// A word and a number where their part is present.
fn put_party(page: &mut Page<'_>, present: bool, word: &[u8], counted: bool, n: Number)
    ensures { Wrote (if_so present (word.now ++ if_so counted (counted_text n) (digits_text n)) []) page.old page.new }
{
    if present {
        page.word(word);
        put_number(page, counted, n);
    }
}

fn put_duration(page: &mut Page<'_>, present: bool, t: u32)
    ensures { Wrote (if_so present (numbered (ascii " DURATION ") t) []) page.old page.new }
{
    if present {
        page.numbered(b" DURATION ", t);
    }
}

// The parts that are words alone.
fn put_flags(page: &mut Page<'_>, parts: u8)
    ensures { Wrote (flags_text parts) page.old page.new }
{
    put_if(page, parts % 2 == 1, b" TRANSFER");
    put_if(page, parts / 2 % 2 == 1, b" ACCEPTED");
    put_if(page, parts / 4 % 2 == 1, b" AS-TRANSFER");
    put_if(page, parts / 8 % 2 == 1, b" PARTIAL");
}

// The parts that have a value.
fn put_values(page: &mut Page<'_>, forms: u8, c: Component)
    ensures { Wrote (values_text forms c) page.old page.new }
{
    put_party(
        page,
        c.parts / 16 % 2 == 1,
        b" CALLING ",
        forms % 2 == 1,
        c.calling,
    );
    put_party(
        page,
        c.parts / 32 % 2 == 1,
        b" CALLED ",
        forms / 2 % 2 == 1,
        c.called,
    );
    put_duration(page, c.parts / 64 % 2 == 1, c.duration);
}

fn put_operation(page: &mut Page<'_>, operation: u8)
    ensures { Wrote (operation_text operation) page.old page.new }
{
    match operation {
        1 => page.word(b" SETUP"),
        2 => page.word(b" ACTIVE"),
        3 => page.word(b" CALLED"),
        _ => page.numbered(b" ", u32::from(operation)),
    }
}

fn put_with_operation(page: &mut Page<'_>, word: &[u8], operation: u8)
    ensures { Wrote (with_operation word.now operation) page.old page.new }
{
    page.word(word);
    put_operation(page, operation);
}

fn put_head(page: &mut Page<'_>, kind: u8, item: u8)
    ensures { Wrote (head_text kind item) page.old page.new }
{
    match kind {
        1 => put_with_operation(page, b"INVOKE", item),
        2 => put_with_operation(page, b"RESULT", item),
        3 => page.numbered(b"ERROR ", u32::from(item)),
        _ => page.word(b"REJECT"),
    }
}

fn put_id(page: &mut Page<'_>, id: u16)
    ensures { Wrote (id_text id) page.old page.new }
{
    if id == 256 {
        page.word(b" ID -");
    } else {
        page.word(b" ID ");
        put_octet(page, (id % 256) as u8);
    }
}

// The line of a component, its numbers in these forms: 1 where the calling number is said by count and value, 2 where the called one is.
pub(crate) fn put_line_in(page: &mut Page<'_>, forms: u8, c: Component)
    ensures { Wrote (line_in forms c) page.old page.new }
{
    put_head(page, c.kind, c.item);
    put_id(page, c.id);
    put_flags(page, c.parts);
    put_values(page, forms, c);
}

#[tactic(auto, unfolding(crate::specs::Lines::line_text))]
pub(crate) fn put_line(page: &mut Page<'_>, c: Component)
    ensures { Wrote (line_text c) page.old page.new }
{
    put_line_in(page, DIGITS, c);
}
