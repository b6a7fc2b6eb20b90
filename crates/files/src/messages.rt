// The line of a message that is sent: its name, for REL its cause, its component, its parts in bit order.
ghost use Rattle.std.specs.Prelude.{◌≡◌, []};
ghost use Rattle.text.specs.Choose.{if_so};
ghost use Rattle.text.specs.Page.{Wrote};
ghost use Rattle.text.specs.Text.{ascii, numbered};
ghost use Rattle.files.specs.Messages.{operation_text, with_operation, component_text, sign_text, number_text};
ghost use Rattle.files.specs.Messages.{with_digits, parts_text, values_text};
ghost use Rattle.files.specs.Messages.{carried_text, sent_text, released_text};

use rows::{Component, Nature, Note, Number};
use text::Page;

pub(crate) fn operation_word(operation: u8) -> &'static [u8]
    ensures { result.now ≡ operation_text operation }
{
    match operation {
        1 => b" SETUP",
        2 => b" ACTIVE",
        _ => b" CALLED",
    }
}

// A word and an operation.
fn put_with_operation(page: &mut Page<'_>, word: &[u8], operation: u8)
    ensures { Wrote (with_operation word.now operation) page.old page.new }
{
    page.word(word);
    page.word(operation_word(operation));
}

// A component that no row sends has no text.
fn put_component(page: &mut Page<'_>, component: Component)
    ensures { Wrote (component_text component) page.old page.new }
{
    match component {
        Component::Invoke(operation) => put_with_operation(page, b" INVOKE", operation),
        Component::Result(operation) => put_with_operation(page, b" RESULT", operation),
        Component::Error(n) => page.numbered(b" ERROR ", u32::from(n)),
        Component::Absent(_) | Component::Reject(_) | Component::Unknown(_, _) => {}
    }
}

// A word where its part is present.
// Kept: a function for what a part may have, here, in words.rt and in write.rt: one for all would be lent a closure at each call.
pub(crate) fn put_if(page: &mut Page<'_>, present: bool, word: &[u8])
    ensures { Wrote (if_so present word.now []) page.old page.new }
{
    if present {
        page.word(word);
    }
}

// Before the digits: what tells an international number from a national one.
pub(crate) fn put_sign(page: &mut Page<'_>, nature: Nature)
    ensures { Wrote (sign_text nature) page.old page.new }
{
    match nature {
        Nature::National => {}
        Nature::International => page.put(b'+'),
    }
}

// Its sign, and as many digits as its count.
fn put_number(page: &mut Page<'_>, n: Number)
    ensures { Wrote (number_text n) page.old page.new }
{
    put_sign(page, n.nature);
    page.digits(n.value, usize::from(n.count));
}

// A word and a number.
pub(crate) fn put_with_digits(page: &mut Page<'_>, word: &[u8], n: Number)
    ensures { Wrote (with_digits word.now n) page.old page.new }
{
    page.word(word);
    put_number(page, n);
}

// A number where its part is present.
fn put_digits_if(page: &mut Page<'_>, present: bool, word: &[u8], n: Number)
    ensures { Wrote (if_so present (with_digits word.now n) []) page.old page.new }
{
    if present {
        put_with_digits(page, word, n);
    }
}

pub(crate) fn put_duration_if(page: &mut Page<'_>, present: bool, seconds: u32)
    ensures { Wrote (if_so present (numbered (ascii " DURATION ") seconds) []) page.old page.new }
{
    if present {
        page.numbered(b" DURATION ", seconds);
    }
}

// The parts that are words alone.
// Kept: the 1 of the first, as each other has its weight: `parts_text` of the definitions has them so.
pub(crate) fn put_parts(page: &mut Page<'_>, parts: u8)
    ensures { Wrote (parts_text parts) page.old page.new }
{
    put_if(page, parts / 1 % 2 == 1, b" TRANSFER");
    put_if(page, parts / 2 % 2 == 1, b" ACCEPTED");
    put_if(page, parts / 4 % 2 == 1, b" AS-TRANSFER");
    put_if(page, parts / 8 % 2 == 1, b" PARTIAL");
}

// The parts that have a value.
fn put_values(page: &mut Page<'_>, m: Note)
    ensures { Wrote (values_text m) page.old page.new }
{
    put_digits_if(page, m.parts / 16 % 2 == 1, b" CALLING ", m.calling);
    put_digits_if(page, m.parts / 32 % 2 == 1, b" CALLED ", m.called);
    put_duration_if(page, m.parts / 64 % 2 == 1, m.duration);
}

// What stands after a message's name, to the end of its line.
fn put_carried(page: &mut Page<'_>, m: Note)
    ensures { Wrote (carried_text m) page.old page.new }
{
    put_component(page, m.component);
    put_parts(page, m.parts);
    put_values(page, m);
    page.put(b'\n');
}

pub(crate) fn put_sent(page: &mut Page<'_>, name: &[u8], m: Note)
    ensures { Wrote (sent_text name.now m) page.old page.new }
{
    page.word(name);
    put_carried(page, m);
}

// REL alone says its cause.
pub(crate) fn put_released(page: &mut Page<'_>, m: Note)
    ensures { Wrote (released_text m) page.old page.new }
{
    page.numbered(b"> REL ", u32::from(m.cause));
    put_carried(page, m);
}
