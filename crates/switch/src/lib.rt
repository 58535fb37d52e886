// The switch: what is shown of it. What it holds, what each event asks of it and what becomes of it is said in specs/; a start and
// the five events are the crates above: wakes, edges, ticks, hears. All that a switch holds is lent to each of them, the
// registers and the state; an event reads the parts it needs and keeps those it changes. What an event cannot change is lent to be
// read alone.
#![tactic(auto)]

ghost use Rattle.std.specs.Prelude.{◌≡◌, []};
ghost use Rattle.answers.specs.Code.{number_of_refusal};
ghost use Rattle.outbox.specs.Outbox.{tally};
ghost use Rattle.state.specs.State.{core_of};
ghost use Rattle.switch.specs.Switch.{answer_with};

use acts::Core;
use answers::{Answer, Refusal};
use outbox::Sent;
use state::parts::core_of;
use state::{COUNTERS, NUMBERS};

// What is shown of the switch as it is kept. Stays as it is: an event promises its answer as a whole (`Responds`). One that handed back a
// Result of what was sent would need a second function, with a second contract, to tell it.
pub fn shown(
    number: u8,
    sent: Sent,
    counters: &[u16; COUNTERS],
    numbers: &[u8; NUMBERS],
    all: &[u8; 256],
) -> Answer
    ensures { result ≡ answer_with number sent all.now (core_of counters.now numbers.now) }
{
    show(number, sent, core_of(counters, numbers), all)
}

// What is shown of a switch that refuses an event: it is as it was, and sends nothing.
pub fn refused(
    refusal: Refusal,
    counters: &[u16; COUNTERS],
    numbers: &[u8; NUMBERS],
    all: &[u8; 256],
) -> Answer
    ensures { result ≡ answer_with (number_of_refusal refusal) (tally []) all.now (core_of counters.now numbers.now) }
{
    shown(refusal.number(), Sent::none(), counters, numbers, all)
}

// What is shown of a switch with this core.
pub fn show(number: u8, sent: Sent, core: Core, all: &[u8; 256]) -> Answer
    ensures { result ≡ answer_with number sent all.now core }
{
    let mode = core.mode;
    let lamp = core.lamp;
    let dimmer = core.dimmer;
    let level = dimmer.level;
    let digit = places::digit(all);
    let light = places::light(all);
    Answer {
        sent,
        number,
        level,
        output: lamp.output(level),
        colour: lamp.colour(mode, digit, light, level),
        mode,
    }
}
