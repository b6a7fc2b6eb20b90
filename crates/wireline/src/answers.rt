// What is said of a whole input: of the component at its start, or of a parameter.
ghost use Rattle.text.specs.Page.{Wrote};
ghost use Rattle.wire.specs.Grammar.{component_of};
ghost use Rattle.wire.specs.Parameters.{walk_of, parameter_of};
ghost use Rattle.wireline.specs.Answers.{refused_text, read_text, answer_text, own_line, Held, walk_text, parameter_text};

use crate::lines::put_line;
use text::Page;
use wire::{Component, Refusal, Whole};

fn put_refused(page: &mut Page<'_>, r: Refusal)
    ensures { Wrote (refused_text r.number r.place) page.old page.new }
{
    page.numbered(b"REFUSED ", u32::from(r.number));
    page.put(b' ');
    page.value(r.place as u64);
    page.put(b'\n');
}

// A component, and the place after it.
fn put_read(page: &mut Page<'_>, c: Component, next: usize)
    ensures { Wrote (read_text c next) page.old page.new }
{
    put_line(page, c);
    page.word(b" NEXT ");
    page.value(next as u64);
    page.put(b'\n');
}

// The component that the bytes begin with.
pub(crate) fn put_component(page: &mut Page<'_>, s: &[u8])
    ensures { Wrote (answer_text (component_of s.now 0)) page.old page.new }
{
    match wire::read_component(s, 0) {
        Err(r) => put_refused(page, r),
        Ok((c, next)) => put_read(page, c, next),
    }
}

// A component on a line of its own.
fn put_own(page: &mut Page<'_>, c: Component)
    ensures { Wrote (own_line c) page.old page.new }
{
    put_line(page, c);
    page.put(b'\n');
}

// The components from place 3 on, of a parameter that was read: none of them is refused.
fn put_each(page: &mut Page<'_>, s: &[u8])
    requires { Held (walk_of s.now 3) }
    ensures { Wrote (walk_text (walk_of s.now 3)) page.old page.new }
{
    let mut place = 3;
    // Kept: the next place is what the reader answers, and no count.
    while place < s.len() {
        let Ok((c, next)) = wire::read_component(s, place) else {
            return;
        };
        put_own(page, c);
        place = next;
    }
}

// A whole parameter.
pub(crate) fn put_parameter(page: &mut Page<'_>, s: &[u8])
    ensures { Wrote (parameter_text (parameter_of s.now)) page.old page.new }
{
    match wire::read_parameter(s) {
        Err(r) => put_refused(page, r),
        Ok(Whole::Empty) => page.word(b"NONE\n"),
        Ok(Whole::One(c)) => put_own(page, c),
        Ok(Whole::Several(_)) => put_each(page, s),
    }
}
