// A component's bytes, put on a page of `text`. An element's tag is put first, and a byte that is set to its length when its contents stand.
// A text is put on a page of the longest one's size, and given to a host that has room for it.
ghost use Rattle.std.specs.Prelude.{◌≡◌, ◌∷◌, [], ◌+◌, ◌/◌, ◌%◌, ◌<◌, ◌^◌};
ghost use Rattle.text.specs.Choose.{if_so};
ghost use Rattle.text.specs.Text.{Put};
ghost use Rattle.text.specs.Page.{Wrote};
ghost use Rattle.wire.specs.Pages.{Opened, Closed};
ghost use Rattle.wire.specs.Texts.{element_text, pair_byte, octets_of, padded_of, number_text, first_text, parties_text, last_text, parts_text, seq_text, id_text, rejected_text, code_text, invoke_text, held_text, result_text, error_text, reject_text, component_text, parameter_text, number_told, field_told, written_of, leaves_of};
ghost use Rattle.wire.specs.Writable.{bad_of};

use crate::writable::bad_field;
use crate::{Component, Number, Unwritten};
use text::Page;

// ---- elements

// An element's tag, and room for its length. The place where its contents begin.
fn open(page: &mut Page<'_>, tag: u8) -> usize
    ensures { Opened tag page.old page.new result }
{
    page.word(&[tag, 0]);
    page.at
}

// The length of the contents that begin at `body`, in the byte before them.
fn close(page: &mut Page<'_>, body: usize)
    ensures { Closed body page.old page.new }
{
    let place = body.saturating_sub(1);
    if place < page.out.len() {
        page.out[place] = (page.at.saturating_sub(body) % 256) as u8;
    }
}

// ---- numbers

fn pair_byte(p: u64) -> u8
    requires { p < 100 }
    ensures { result ≡ pair_byte p }
{
    (p / 10 + p % 10 * 16) as u8
}

// The last 2 * m digits of v, in a buffer from a place on; the last two are put first.
fn set_octets(out: &mut [u8], at: usize, v: u64, m: usize)
    requires { (at < 2 ^ 63) × (m < 2 ^ 63) }
    ensures { Put out.old at (octets_of m v) out.new (at + m) }
{
    let mut rest = v;
    for left in (0..m).rev() {
        if at + left < out.len() {
            out[at + left] = pair_byte(rest % 100);
        }
        rest /= 100;
    }
}

// Where there is no room there is nothing to divide.
fn put_octets(page: &mut Page<'_>, v: u64, m: u8)
    ensures { Wrote (octets_of m v) page.old page.new }
{
    let m = m as usize;
    if page.at < page.out.len() {
        set_octets(page.out, page.at, v, m);
    }
    page.at = page.at.saturating_add(m);
}

fn padded(count: u8, v: u64) -> u64
    ensures { result ≡ padded_of count v }
{
    let digits = v % 1_000_000_000_000_000;
    if count % 2 == 1 { digits * 10 } else { digits }
}

fn put_number(page: &mut Page<'_>, n: Number)
    ensures { Wrote (number_text n) page.old page.new }
{
    page.word(&[n.count % 2 * 128 + n.count / 128 + 3, 19]);
    put_octets(page, padded(n.count, n.value), (n.count % 128 + 1) / 2);
}

// ---- parts

#[tactic(auto, unfolding(text::specs::Choose::if_so), using(text::proofs::Writes::wrote_none))]
fn put_flag(page: &mut Page<'_>, present: bool, tag: u8, x: u8)
    ensures { Wrote (if_so present (tag ∷ 1 ∷ x ∷ []) []) page.old page.new }
{
    if present {
        page.word(&[tag, 1, x]);
    }
}

fn put_party(page: &mut Page<'_>, present: bool, n: Number)
    ensures { Wrote (if_so present (element_text 129 (number_text n)) []) page.old page.new }
{
    if present {
        let body = open(page, 129);
        put_number(page, n);
        close(page, body);
    }
}

#[tactic(auto, unfolding(text::specs::Choose::if_so), using(text::proofs::Writes::wrote_none))]
fn put_duration(page: &mut Page<'_>, present: bool, t: u32)
    ensures { Wrote (if_so present (130 ∷ 3 ∷ t / 3600 % 256 ∷ t / 60 % 60 ∷ t % 60 ∷ []) []) page.old page.new }
{
    if present {
        let hours = (t / 3600 % 256) as u8;
        page.word(&[130, 3, hours, (t / 60 % 60) as u8, (t % 60) as u8]);
    }
}

fn put_first(page: &mut Page<'_>, p: u8)
    ensures { Wrote (first_text p) page.old page.new }
{
    put_flag(page, p % 2 == 1, 128, 255);
    put_flag(page, p / 2 % 2 == 1, 128, p / 4 % 2 * 255);
}

fn put_parties(page: &mut Page<'_>, c: Component)
    ensures { Wrote (parties_text c) page.old page.new }
{
    put_party(page, c.parts / 16 % 2 == 1, c.calling);
    put_party(page, c.parts / 32 % 2 == 1, c.called);
}

fn put_last(page: &mut Page<'_>, c: Component)
    ensures { Wrote (last_text c) page.old page.new }
{
    put_flag(page, c.parts / 8 % 2 == 1, 130, 255);
    put_duration(page, c.parts / 64 % 2 == 1, c.duration);
}

fn put_parts(page: &mut Page<'_>, c: Component)
    ensures { Wrote (parts_text c) page.old page.new }
{
    put_first(page, c.parts);
    put_parties(page, c);
    put_last(page, c);
}

fn put_seq(page: &mut Page<'_>, c: Component)
    ensures { Wrote (seq_text c) page.old page.new }
{
    let body = open(page, 48);
    put_parts(page, c);
    close(page, body);
}

// ---- components

#[tactic(auto, unfolding(crate::specs::Texts::id_text))]
fn put_id(page: &mut Page<'_>, id: u16)
    ensures { Wrote (id_text id) page.old page.new }
{
    page.word(&[2, 1, (id % 256) as u8]);
}

fn put_rejected(page: &mut Page<'_>, id: u16)
    ensures { Wrote (rejected_text id) page.old page.new }
{
    if id == 256 {
        page.word(&[5, 0]);
    } else {
        put_id(page, id);
    }
}

#[tactic(auto, unfolding(crate::specs::Texts::code_text))]
fn put_code(page: &mut Page<'_>, n: u8)
    ensures { Wrote (code_text n) page.old page.new }
{
    page.word(&[6, 7, 0, 17, 133, 96, 3, 1, n]);
}

fn put_invoke(page: &mut Page<'_>, c: Component)
    ensures { Wrote (invoke_text c) page.old page.new }
{
    let body = open(page, 161);
    put_id(page, c.id);
    put_code(page, c.item);
    put_seq(page, c);
    close(page, body);
}

fn put_held(page: &mut Page<'_>, c: Component)
    ensures { Wrote (held_text c) page.old page.new }
{
    let body = open(page, 48);
    put_code(page, c.item);
    put_seq(page, c);
    close(page, body);
}

fn put_result(page: &mut Page<'_>, c: Component)
    ensures { Wrote (result_text c) page.old page.new }
{
    let body = open(page, 162);
    put_id(page, c.id);
    put_held(page, c);
    close(page, body);
}

fn put_error(page: &mut Page<'_>, c: Component)
    ensures { Wrote (error_text c) page.old page.new }
{
    let body = open(page, 163);
    put_id(page, c.id);
    put_code(page, c.item);
    close(page, body);
}

fn put_reject(page: &mut Page<'_>, c: Component)
    ensures { Wrote (reject_text c) page.old page.new }
{
    let body = open(page, 164);
    put_rejected(page, c.id);
    page.word(&[128, 1, 0]);
    close(page, body);
}

fn put_component(page: &mut Page<'_>, c: Component)
    ensures { Wrote (component_text c) page.old page.new }
{
    match c.kind {
        1 => put_invoke(page, c),
        2 => put_result(page, c),
        3 => put_error(page, c),
        _ => put_reject(page, c),
    }
}

// Its name and count stand as an element's tag and length do.
fn put_parameter(page: &mut Page<'_>, c: Component)
    ensures { Wrote (parameter_text c) page.old page.new }
{
    let body = open(page, 50);
    page.put(145);
    put_component(page, c);
    close(page, body);
}

// ---- what a host is given

impl Unwritten {
    // As document 01 has it.
    #[tactic(auto, unfolding(crate::specs::Texts::number_told))]
    pub fn number(self) -> u8
        ensures { result ≡ number_told self }
    {
        match self {
            Unwritten::BadField(_) => 3,
            Unwritten::NoRoom => 8,
        }
    }

    // The ordinal that stands beside the number, 0 beside 8.
    #[tactic(auto, unfolding(crate::specs::Texts::field_told))]
    pub fn field(self) -> u8
        ensures { result ≡ field_told self }
    {
        match self {
            Unwritten::BadField(k) => k,
            Unwritten::NoRoom => 0,
        }
    }
}

// What is given of the text of a component that can be written: its bytes, where there is room for them.
// Kept: Unwritten, like files' own: neither of the two crates rests on the other, and their clauses name their own.
fn give(text: &[u8], out: &mut [u8]) -> Result<usize, Unwritten>
    ensures { (result ≡ written_of 0 text.now out.old) × (out.new ≡ leaves_of 0 text.now out.old) }
{
    if out.len() < text.len() {
        return Err(Unwritten::NoRoom);
    }
    out[..text.len()].copy_from_slice(text);
    Ok(text.len())
}

// The first bad field of what cannot be written, then too little room; else the component's bytes.
pub fn write_component(c: Component, out: &mut [u8]) -> Result<usize, Unwritten>
    ensures { (result ≡ written_of (bad_of c) (component_text c) out.old)
        × (out.new ≡ leaves_of (bad_of c) (component_text c) out.old) }
{
    match bad_field(c) {
        Some(k) => Err(Unwritten::BadField(k)),
        None => {
            let mut bytes = [0; 168];
            let mut page = Page::new(&mut bytes);
            put_component(&mut page, c);
            let n = page.at;
            give(&bytes[..n], out)
        }
    }
}

// The same for a whole parameter of this one component.
// Kept: one function over `impl Fn(&mut Page<'_>, Component)` would be no shorter than these two, and its clauses longer.
pub fn write_parameter(c: Component, out: &mut [u8]) -> Result<usize, Unwritten>
    ensures { (result ≡ written_of (bad_of c) (parameter_text c) out.old)
        × (out.new ≡ leaves_of (bad_of c) (parameter_text c) out.old) }
{
    match bad_field(c) {
        Some(k) => Err(Unwritten::BadField(k)),
        None => {
            let mut bytes = [0; 171];
            let mut page = Page::new(&mut bytes);
            put_parameter(&mut page, c);
            let n = page.at;
            give(&bytes[..n], out)
        }
    }
}
