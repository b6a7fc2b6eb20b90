// What a record says, in words, for the dump: each field has its word, or its number where it is out of its range.
ghost use Rattle.std.specs.Prelude.{◌≡◌, true, [], ◌++◌};
ghost use Rattle.text.specs.Choose.{if_so};
ghost use Rattle.text.specs.Page.{Wrote};
ghost use Rattle.text.specs.Text.{ascii};
ghost use Rattle.files.specs.Words.{code_word, digits_word, counted_word, number_word, role_word, comma_text};
ghost use Rattle.files.specs.Words.{flags_text, flags_word, opening_words, asked_word, ask_words, name_word, operation_word};
ghost use Rattle.files.specs.Words.{with_operation_word, unless_zero, reject_words, unknown_words, component_words, with_number};
ghost use Rattle.files.specs.Words.{values_words, message_words, told_word, access_words, event_words, where_words, entry_words, Says};

use crate::Where;
use crate::messages::{
    operation_word, put_duration_if, put_if, put_parts, put_sign, put_with_digits,
};
use rows::{Component, Event, Message, Number};
use text::Page;

// A number that has no word.
fn put_code(page: &mut Page<'_>, n: u8)
    ensures { Wrote (code_word n) page.old page.new }
{
    page.numbered(b" ", u32::from(n));
}

// A telephone number in range: its digits, or that there is none.
fn put_digits_word(page: &mut Page<'_>, n: Number)
    ensures { Wrote (digits_word n) page.old page.new }
{
    if n.count == 0 {
        page.word(b" -");
    } else {
        put_with_digits(page, b" ", n);
    }
}

// One out of range: its sign, its count and its value.
fn put_counted_word(page: &mut Page<'_>, n: Number)
    ensures { Wrote (counted_word n) page.old page.new }
{
    page.put(b' ');
    put_sign(page, n.nature);
    page.decimal(u32::from(n.count));
    page.put(b':');
    page.value(n.value);
}

fn put_number(page: &mut Page<'_>, n: Number)
    ensures { Wrote (number_word n) page.old page.new }
{
    if rows::in_range(n) {
        put_digits_word(page, n);
    } else {
        put_counted_word(page, n);
    }
}

fn put_role(page: &mut Page<'_>, role: u8)
    ensures { Wrote (role_word role) page.old page.new }
{
    match role {
        0 => page.word(b" originating"),
        1 => page.word(b" destination"),
        _ => put_code(page, role),
    }
}

// Before a flag: a comma where another came before it.
fn put_comma(page: &mut Page<'_>, before: u8)
    ensures { Wrote (comma_text before) page.old page.new }
{
    page.put(if before == 0 { b' ' } else { b',' });
}

// A flag that is set. before: those before it.
fn put_flag(page: &mut Page<'_>, present: bool, before: u8, word: &[u8])
    ensures { Wrote (if_so present (comma_text before ++ word.now) []) page.old page.new }
{
    if present {
        put_comma(page, before);
        page.word(word);
    }
}

// Kept: the 1 of the first, as each other has its weight: `flags_text` of the definitions has them so.
fn put_set_flags(page: &mut Page<'_>, flags: u8)
    ensures { Wrote (flags_text flags) page.old page.new }
{
    put_flag(page, flags / 1 % 2 == 1, flags % 1, b"transfer");
    put_flag(page, flags / 2 % 2 == 1, flags % 2, b"option");
    put_flag(page, flags / 4 % 2 == 1, flags % 4, b"subscribed");
    put_flag(page, flags / 8 % 2 == 1, flags % 8, b"interaction");
    put_flag(page, flags / 16 % 2 == 1, flags % 16, b"case-d");
}

// From 32 on there is a bit that is no flag.
fn put_flags(page: &mut Page<'_>, flags: u8)
    ensures { Wrote (flags_word flags) page.old page.new }
{
    match flags {
        0 => page.word(b" -"),
        1..32 => put_set_flags(page, flags),
        _ => put_code(page, flags),
    }
}

fn put_opening(page: &mut Page<'_>, role: u8, flags: u8, own: Number)
    ensures { Wrote (opening_words role flags own) page.old page.new }
{
    page.word(b" OPENING");
    put_role(page, role);
    put_flags(page, flags);
    put_number(page, own);
}

// What the own user asks.
fn put_asked(page: &mut Page<'_>, item: u8)
    ensures { Wrote (asked_word item) page.old page.new }
{
    match item {
        0 => page.word(b" BASIC"),
        1 => page.word(b" A"),
        2 => page.word(b" B"),
        3 => page.word(b" C"),
        _ => put_code(page, item),
    }
}

fn put_ask(page: &mut Page<'_>, item: u8, called: Number)
    ensures { Wrote (ask_words item called) page.old page.new }
{
    page.word(b" REQUEST");
    put_asked(page, item);
    put_number(page, called);
}

// A message's name.
fn put_name(page: &mut Page<'_>, kind: u8)
    ensures { Wrote (name_word kind) page.old page.new }
{
    match kind {
        1 => page.word(b" IAM"),
        2 => page.word(b" ANM"),
        3 => page.word(b" CON"),
        4 => page.word(b" REL"),
        5 => page.word(b" FAC"),
        _ => page.numbered(b" MESSAGE ", u32::from(kind)),
    }
}

fn put_operation_word(page: &mut Page<'_>, operation: u8)
    ensures { Wrote (operation_word operation) page.old page.new }
{
    match operation {
        1..=3 => page.word(operation_word(operation)),
        _ => put_code(page, operation),
    }
}

fn put_with_operation_word(page: &mut Page<'_>, word: &[u8], operation: u8)
    ensures { Wrote (with_operation_word word.now operation) page.old page.new }
{
    page.word(word);
    put_operation_word(page, operation);
}

// A field that is 0 unless it is out of its range.
fn put_unless_zero(page: &mut Page<'_>, word: &[u8], n: u8)
    ensures { Wrote (unless_zero word.now n) page.old page.new }
{
    if n != 0 {
        page.numbered(word, u32::from(n));
    }
}

fn put_reject(page: &mut Page<'_>, n: u8)
    ensures { Wrote (reject_words n) page.old page.new }
{
    page.word(b" REJECT");
    put_unless_zero(page, b" ", n);
}

fn put_unknown(page: &mut Page<'_>, code: u8, n: u8)
    ensures { Wrote (unknown_words code n) page.old page.new }
{
    page.numbered(b" COMPONENT ", u32::from(code));
    put_code(page, n);
}

fn put_component_words(page: &mut Page<'_>, component: Component)
    ensures { Wrote (component_words component) page.old page.new }
{
    match component {
        Component::Absent(n) => put_unless_zero(page, b" NONE ", n),
        Component::Invoke(operation) => put_with_operation_word(page, b" INVOKE", operation),
        Component::Result(operation) => put_with_operation_word(page, b" RESULT", operation),
        Component::Error(n) => page.numbered(b" ERROR ", u32::from(n)),
        Component::Reject(n) => put_reject(page, n),
        Component::Unknown(code, n) => put_unknown(page, code, n),
    }
}

fn put_with_number(page: &mut Page<'_>, word: &[u8], n: Number)
    ensures { Wrote (with_number word.now n) page.old page.new }
{
    page.word(word);
    put_number(page, n);
}

// A number where its part is present.
fn put_number_if(page: &mut Page<'_>, present: bool, word: &[u8], n: Number)
    ensures { Wrote (if_so present (with_number word.now n) []) page.old page.new }
{
    if present {
        put_with_number(page, word, n);
    }
}

// The parts that have a value, and the bit that is no part.
fn put_values_words(page: &mut Page<'_>, m: Message)
    ensures { Wrote (values_words m) page.old page.new }
{
    put_number_if(page, m.parts / 16 % 2 == 1, b" CALLING", m.calling);
    put_number_if(page, m.parts / 32 % 2 == 1, b" CALLED", m.called);
    put_duration_if(page, m.parts / 64 % 2 == 1, m.duration);
    put_if(page, m.parts / 128 % 2 == 1, b" PART 128");
}

fn put_message(page: &mut Page<'_>, m: Message)
    ensures { Wrote (message_words m) page.old page.new }
{
    put_name(page, m.kind);
    put_code(page, m.cause);
    put_component_words(page, m.component);
    put_parts(page, m.parts);
    put_values_words(page, m);
}

// What the own access tells.
fn put_told(page: &mut Page<'_>, item: u8)
    ensures { Wrote (told_word item) page.old page.new }
{
    match item {
        1 => page.word(b" ACCEPT"),
        2 => page.word(b" ERROR"),
        3 => page.word(b" REJECT"),
        4 => page.word(b" CLEAR"),
        5 => page.word(b" ANSWER"),
        _ => put_code(page, item),
    }
}

fn put_access(page: &mut Page<'_>, item: u8, error: u8)
    ensures { Wrote (access_words item error) page.old page.new }
{
    page.word(b" ACCESS");
    put_told(page, item);
    put_code(page, error);
}

fn put_event(page: &mut Page<'_>, e: Event)
    ensures { Wrote (event_words e) page.old page.new }
{
    match e {
        Event::Opening(role, flags, own) => put_opening(page, role, flags, own),
        Event::Ask(item, called) => put_ask(page, item, called),
        Event::Received(m) => put_message(page, m),
        Event::FromAccess(item, error) => put_access(page, item, error),
        Event::Expiry => page.word(b" EXPIRY"),
        Event::Time(seconds) => page.numbered(b" TIME ", seconds),
    }
}

// A record of kind 7 says its slot first.
fn put_where(page: &mut Page<'_>, w: Where)
    ensures { Wrote (where_words w) page.old page.new }
{
    match w {
        Where::Plain => {}
        Where::Slot(slot) => page.numbered(b" SLOT ", u32::from(slot)),
    }
}

pub(crate) fn put_entry(page: &mut Page<'_>, w: Where, e: Event)
    ensures { Wrote (entry_words w e) page.old page.new }
{
    put_where(page, w);
    put_event(page, e);
}

// Whether words are a line with a blank before it.
fn begins_line(words: &[u8], line: &[u8]) -> bool
    ensures { (result ≡ true → ascii " " ++ line.now ≡ words.now)
        × (ascii " " ++ line.now ≡ words.now → result ≡ true) }
{
    match words.strip_prefix(b" ") {
        Some(rest) => rest == line,
        None => false,
    }
}

// Whether a line says an event, plain or at a slot, in its words, without the blank that they begin with.
// Kept: room for the longest words, since nothing is taken from a heap.
pub fn says(line: &[u8], w: Where, e: Event) -> bool
    ensures { Says line.now w e result }
{
    let mut words = [0u8; 226];
    let mut page = Page::new(&mut words);
    put_entry(&mut page, w, e);
    let n = page.at;
    begins_line(&words[..n], line)
}
