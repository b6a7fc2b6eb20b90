// Components of the wire, and messages as calls have them.
#![tactic(auto, unfolding(crate::specs::Messages::number_of, crate::specs::Messages::heard_of, crate::specs::Messages::received_of, crate::specs::Messages::no_component, crate::specs::Messages::alone_of, crate::specs::Messages::party_of, crate::specs::Messages::carried_of, crate::specs::Messages::sent_of))]

ghost use Rattle.std.specs.Prelude.{◌≡◌};
ghost use Rattle.wire.specs.Texts.{parameter_text, written_of, leaves_of};
ghost use Rattle.wire.specs.Writable.{bad_of};
ghost use Rattle.peers.specs.Messages.{number_of, heard_of, received_of, no_component, alone_of, party_of, carried_of, sent_of};

use rows::{Event, Message, Note, Number};
use wire::{Component, Unwritten};

// ---- from the wire

// Kept: no `From` here and at `party`: both types of a number are of other crates, since wire may know no calls, and rows no bytes.
fn number(n: wire::Number) -> Number
    ensures { result ≡ number_of n }
{
    Number {
        nature: files::nature_of(n.count),
        count: files::count_of(n.count),
        value: n.value,
    }
}

// The message that carried this component.
pub fn heard(message: u8, cause: u8, c: Component) -> Message
    ensures { result ≡ heard_of message cause c }
{
    Message {
        kind: message,
        cause,
        component: files::component_of(c.kind, c.item),
        parts: c.parts,
        calling: number(c.calling),
        called: number(c.called),
        duration: c.duration,
    }
}

// The event of it.
pub fn received(message: u8, cause: u8, c: Component) -> Event
    ensures { result ≡ received_of message cause c }
{
    Event::Received(heard(message, cause, c))
}

// 01's component 0.
pub(crate) fn none() -> Component
    ensures { result ≡ no_component }
{
    let absent = wire::Number { count: 0, value: 0 };
    Component {
        kind: 0,
        item: 0,
        parts: 0,
        calling: absent,
        called: absent,
        duration: 0,
        id: 256,
    }
}

// The event of a message without a component.
pub fn alone(message: u8, cause: u8) -> Event
    ensures { result ≡ alone_of message cause }
{
    received(message, cause, none())
}

// ---- to the wire

fn party(n: Number) -> wire::Number
    ensures { result ≡ party_of n }
{
    wire::Number {
        count: files::count_byte(n.nature, n.count),
        value: n.value,
    }
}

// The component that a message carries.
pub fn carried(m: Message, id: u16) -> Component
    ensures { result ≡ carried_of m id }
{
    Component {
        kind: files::code_of(m.component),
        item: files::item_of(m.component),
        parts: m.parts,
        calling: party(m.calling),
        called: party(m.called),
        duration: m.duration,
        id,
    }
}

// The component of the message that a row sends. Kind and cause are the message's own, so any will do.
pub fn sent(n: Note, id: u16) -> Component
    ensures { result ≡ sent_of n id }
{
    let m = Message {
        kind: 0,
        cause: 0,
        component: n.component,
        parts: n.parts,
        calling: n.calling,
        called: n.called,
        duration: n.duration,
    };
    carried(m, id)
}

// What a row sends, as a whole parameter: 3 for what cannot be written, then 8 for too little room.
pub fn write_sent(n: Note, id: u16, out: &mut [u8]) -> Result<usize, Unwritten>
    ensures { (result ≡ written_of (bad_of (sent_of n id)) (parameter_text (sent_of n id)) out.old)
        × (out.new ≡ leaves_of (bad_of (sent_of n id)) (parameter_text (sent_of n id)) out.old) }
{
    wire::write_parameter(sent(n, id), out)
}
