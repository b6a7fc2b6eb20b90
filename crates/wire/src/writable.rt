// What can be written: a component whose fields are all in range; and the first of them that is not.
#![tactic(auto, unfolding(text::specs::Choose::if_so, text::specs::Choose::if_lt, text::specs::Choose::if_eq, crate::specs::Writable::range_ok, crate::specs::Writable::item_ok, crate::specs::Writable::argument_ok, crate::specs::Writable::result_ok, crate::specs::Writable::places_ok, crate::specs::Writable::number_ok, crate::specs::Writable::duration_ok, crate::specs::Writable::id_ok))]

ghost use Rattle.std.specs.Prelude.{◌≡◌, ◌==◌, ◌||◌, ◌&&◌, not, ◌+◌, ◌/◌, ◌%◌};
ghost use Rattle.wire.specs.Writable.{kind_ok, item_ok, argument_ok, result_ok, places_ok, parts_ok, number_ok, duration_ok, id_ok, ordinal, bad_of};

use crate::{Component, Number};

// ---- component, operation or error

fn kind_ok(kind: u8) -> bool
    ensures { result ≡ (kind_ok kind == 1) }
{
    (1..=4).contains(&kind)
}

fn item_ok(kind: u8, item: u8) -> bool
    ensures { result ≡ (item_ok kind item == 1) }
{
    match kind {
        1 | 2 => (1..=3).contains(&item),
        3 => (4..=12).contains(&item),
        _ => item == 0,
    }
}

// ---- parts

fn argument_ok(item: u8, p: u8) -> bool
    ensures { result ≡ (argument_ok item p == 1) }
{
    if item == 3 {
        p % 2 + p / 8 % 2 * 8 + p / 32 % 2 * 32 == p
    } else {
        p % 2 + p / 16 % 2 * 16 == p
    }
}

fn result_ok(item: u8, p: u8) -> bool
    ensures { result ≡ (result_ok item p == 1) }
{
    if p / 2 % 2 < p / 4 % 2 {
        false
    } else if item == 3 {
        p / 2 % 2 * 2 + p / 4 % 2 * 4 + p / 16 % 2 * 16 + p / 64 % 2 * 64 == p
    } else {
        p / 2 % 2 * 2 + p / 4 % 2 * 4 + p / 32 % 2 * 32 == p
    }
}

fn places_ok(kind: u8, item: u8, p: u8) -> bool
    ensures { result ≡ (places_ok kind item p == 1) }
{
    match kind {
        1 => argument_ok(item, p),
        2 => result_ok(item, p),
        _ => p == 0,
    }
}

fn unnamed_ok(named: bool, n: Number) -> bool
    ensures { result ≡ (named || (n.count == 0) && (n.value == 0)) }
{
    named || n.count == 0 && n.value == 0
}

fn untimed_ok(named: bool, t: u32) -> bool
    ensures { result ≡ (named || (t == 0)) }
{
    named || t == 0
}

#[tactic(auto, using(crate::proofs::Fields::parts_as))]
fn parts_ok(c: Component) -> bool
    ensures { result ≡ (parts_ok c == 1) }
{
    places_ok(c.kind, c.item, c.parts)
        && unnamed_ok(c.parts / 16 % 2 == 1, c.calling)
        && unnamed_ok(c.parts / 32 % 2 == 1, c.called)
        && untimed_ok(c.parts / 64 % 2 == 1, c.duration)
}

// ---- numbers, Duration, identifier: what the parts do not name is not looked at

fn number_ok(n: Number) -> bool
    ensures { result ≡ (number_ok n == 1) }
{
    let count = n.count % 128;
    (1..=15).contains(&count) && n.value < 10u64.pow(u32::from(count))
}

fn number_if(named: bool, n: Number) -> bool
    ensures { result ≡ (not named || (number_ok n == 1)) }
{
    !named || number_ok(n)
}

fn duration_if(named: bool, t: u32) -> bool
    ensures { result ≡ (not named || (duration_ok t == 1)) }
{
    !named || t <= 921599
}

fn id_ok(kind: u8, id: u16) -> bool
    ensures { result ≡ (id_ok kind id == 1) }
{
    id < 256 || kind == 4 && id == 256
}

// ---- the first that is out of range

// Its ordinal. A number or Duration that the parts do not name is no field.
#[tactic(auto, using(crate::proofs::Fields::first_told))]
// Kept: 0 or 1 for a part that is named, since each named one before a field adds 1 to its ordinal, as `bad_from` of specs counts.
pub fn bad_field(c: Component) -> Option<u8>
    ensures { result ≡ ordinal (bad_of c) }
{
    let calling = c.parts / 16 % 2;
    let called = c.parts / 32 % 2;
    let duration = c.parts / 64 % 2;
    if !kind_ok(c.kind) {
        Some(1)
    } else if !item_ok(c.kind, c.item) {
        Some(2)
    } else if !parts_ok(c) {
        Some(3)
    } else if !number_if(calling == 1, c.calling) {
        Some(4)
    } else if !number_if(called == 1, c.called) {
        Some(4 + calling)
    } else if !duration_if(duration == 1, c.duration) {
        Some(4 + calling + called)
    } else if !id_ok(c.kind, c.id) {
        Some(4 + calling + called + duration)
    } else {
        None
    }
}
