// The lines of a listing: a record's, an action's, the last.
// Kept: here and in messages.rt, words.rt and dump.rt a text is put by a function: a Display promises its text on Ok alone, `Wrote` always.
ghost use Rattle.std.specs.Prelude.{◌+◌, ◌≤◌};
ghost use Rattle.text.specs.Page.{Wrote};
ghost use Rattle.files.specs.Lines.{phase_text, rev_text, stand_text, meters_text, slot_text, line_text, numbered_line, action_text, actions_text};
ghost use Rattle.files.specs.Lines.{record_text, longest_record};

use crate::messages::{put_released, put_sent};
use meters::Meters;
use rows::{APPLIED, Act, Call, Note, Outcome, Phase, RevState, Stand};
use text::Page;

// Kept: an arm for each word, here and in put_rev: it is as plain as a function of words and a call.
fn put_phase(page: &mut Page<'_>, phase: Phase)
    ensures { Wrote (phase_text phase) page.old page.new }
{
    match phase {
        Phase::Unopened => page.word(b" NONE"),
        Phase::Null => page.word(b" NULL"),
        Phase::Setup => page.word(b" SETUP"),
        Phase::Answered => page.word(b" ANSWERED"),
        Phase::Cleared => page.word(b" CLEARED"),
    }
}

fn put_rev(page: &mut Page<'_>, rev: RevState)
    ensures { Wrote (rev_text rev) page.old page.new }
{
    match rev {
        RevState::Idle => page.word(b" IDLE"),
        RevState::WaitSetup => page.word(b" WAIT-SETUP"),
        RevState::WaitActive => page.word(b" WAIT-ACTIVE"),
        RevState::WaitAnswer => page.word(b" WAIT-ANSWER"),
        RevState::Active => page.word(b" ACTIVE"),
        RevState::WaitSetupConf => page.word(b" WAIT-SETUP-CONF"),
        RevState::WaitActiveConf => page.word(b" WAIT-ACTIVE-CONF"),
        RevState::WaitCalled => page.word(b" WAIT-CALLED"),
    }
}

fn put_stand(page: &mut Page<'_>, stand: Stand)
    ensures { Wrote (stand_text stand) page.old page.new }
{
    put_phase(page, stand.phase);
    put_rev(page, stand.rev);
}

fn put_meters(page: &mut Page<'_>, m: Meters)
    ensures { Wrote (meters_text m) page.old page.new }
{
    page.numbered(b" ", m.caller);
    page.numbered(b" ", m.called);
    page.numbered(b" ", m.far);
}

// The slot, where slots are shown.
// Kept: a bool beside the slot, here and in put_line and put_record: `slot_text`, `line_text` and `record_text` (Lines.antt) take both.
fn put_slot(page: &mut Page<'_>, slots: bool, slot: u32)
    ensures { Wrote (slot_text slots slot) page.old page.new }
{
    if slots {
        page.numbered(b" ", slot);
    }
}

// A record's line: its ordinal, its slot, its number, and the call after it.
fn put_line(page: &mut Page<'_>, ordinal: u32, slots: bool, slot: u32, number: u8, call: Call)
    ensures { Wrote (line_text ordinal slots slot number call) page.old page.new }
{
    page.decimal(ordinal);
    put_slot(page, slots, slot);
    page.numbered(b" ", u32::from(number));
    put_stand(page, call.stand);
    put_meters(page, call.meters);
    page.put(b'\n');
}

// A word, a number, and the end of the line.
pub(crate) fn put_numbered_line(page: &mut Page<'_>, word: &[u8], n: u32)
    ensures { Wrote (numbered_line word.now n) page.old page.new }
{
    page.numbered(word, n);
    page.put(b'\n');
}

// An action's line, with what it carries; none for Nothing.
// Kept: an arm for each line: some have a word alone, some a number behind it, some a message.
fn put_action(page: &mut Page<'_>, a: Act, m: Note)
    ensures { Wrote (action_text m a) page.old page.new }
{
    match a {
        Act::Nothing => {}
        Act::NotifyAccepted => page.word(b"> NOTIFY ACCEPTED\n"),
        Act::AccessSetup => page.word(b"> ACCESS SETUP\n"),
        Act::AccessAsk => page.word(b"> ACCESS ASK\n"),
        Act::AccessError => put_numbered_line(page, b"> ACCESS ERROR ", u32::from(m.error)),
        Act::AccessRel => put_numbered_line(page, b"> ACCESS REL ", u32::from(m.cause)),
        Act::ChargeCalling => page.word(b"> CHARGE CALLING\n"),
        Act::ChargeCalled => page.word(b"> CHARGE CALLED\n"),
        Act::Stop => page.word(b"> STOP\n"),
        Act::SendIam => put_sent(page, b"> IAM", m),
        Act::SendAnm => put_sent(page, b"> ANM", m),
        Act::SendRel => put_released(page, m),
        Act::SendFac => put_sent(page, b"> FAC", m),
    }
}

fn put_actions(page: &mut Page<'_>, o: Outcome)
    ensures { Wrote (actions_text o) page.old page.new }
{
    put_action(page, o.first, o.note);
    put_action(page, o.second, o.note);
    put_action(page, o.third, o.note);
    put_action(page, o.fourth, o.note);
}

// A record's line and, where a row was applied, its actions.
pub(crate) fn put_record(page: &mut Page<'_>, ordinal: u32, slots: bool, slot: u32, o: Outcome)
    ensures put { Wrote (record_text ordinal slots slot o) page.old page.new }
    ensures upper_bound { page.new.at ≤ page.old.at + longest_record }
{
    put_line(page, ordinal, slots, slot, o.number, o.call);
    if o.number == APPLIED {
        put_actions(page, o);
    }
}
