// A whole parameter: 32 LL 91, then components, one after the other, to its end.
#![tactic(auto, unfolding(crate::specs::Parameters::framed_of, text::specs::Choose::if_lt, text::specs::Choose::if_eq, text::specs::Choose::if_so))]

ghost use Rattle.std.specs.Prelude.{◌≡◌, ◌<◌, length};
ghost use Rattle.wire.specs.Parameters.{before, walk_of, framed_of, parameter_of, Bounded, told_of, several_of};

use crate::components::read_component;
use crate::elements::{NOT_OURS, refused};
use crate::heads::{BAD_LENGTH, CUT_SHORT};
use crate::{Component, Refusal, Whole};

// The components from a place on, after one.
fn several(s: &[u8], at: usize) -> Result<Whole, Refusal>
    requires { at < length s.now }
    ensures { result ≡ several_of 1 (walk_of s.now at) }
{
    let mut place = at;
    let mut count = 1;
    while place < s.len() {
        place = read_component(s, place)?.1;
        count += 1;
    }
    Ok(Whole::Several(count))
}

// The usual parameter has one component, which needs no second look.
fn one_or_more(s: &[u8], c: Component, next: usize) -> Result<Whole, Refusal>
    ensures { result ≡ told_of (before c (walk_of s.now next)) }
{
    if s.len() <= next {
        Ok(Whole::One(c))
    } else {
        several(s, next)
    }
}

fn components(s: &[u8], at: usize) -> Result<Whole, Refusal>
    ensures { result ≡ told_of (walk_of s.now at) }
{
    if s.len() <= at {
        return Ok(Whole::Empty);
    }
    let (c, next) = read_component(s, at)?;
    one_or_more(s, c, next)
}

// A parameter's own three bytes. Its components begin at place 3.
pub fn framed(s: &[u8]) -> Result<(), Refusal>
    ensures { (result ≡ framed_of s.now) × Bounded s.now result }
{
    if s.len() < 2 {
        return refused(CUT_SHORT, 0);
    }
    let said = 2 + usize::from(s[1]);
    if s.len() < said {
        refused(CUT_SHORT, 0)
    } else if said < s.len() || said == 2 {
        refused(BAD_LENGTH, 0)
    } else if s[0] != 50 {
        refused(NOT_OURS, 0)
    } else if s[2] != 145 {
        refused(NOT_OURS, 2)
    } else {
        Ok(())
    }
}

// A whole parameter. Its own three bytes first, then its components.
pub fn read_parameter(s: &[u8]) -> Result<Whole, Refusal>
    ensures { result ≡ told_of (parameter_of s.now) }
{
    framed(s)?;
    components(s, 3)
}
