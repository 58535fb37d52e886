// One tick, 1/240 second.
#![tactic(auto)]

ghost use Rattle.std.specs.Prelude.{◌≡◌, length};
ghost use Rattle.outbox.specs.Code.{packets_in};
ghost use Rattle.switch.specs.Switch.{tick};
ghost use Rattle.switch.specs.Respond.{Responds};
ghost use Rattle.switch.specs.Code.{signalled_on};
ghost use Rattle.ticks.specs.Code.{Finishes, Ticks, Turns};

use acts::Core;
use answers::{Answer, Refusal};
use lamp::Colour;
use model::{PADDLES, ROOM};
use moves::pass;
use moves::shift::{lone, shift, shifts};
use outbox::{Outbox, Sent};
use paddle::Gesture;
use panel::BYTES;
use state::parts::{core_of, keep, mode_in, password_of, save_in};
use state::{COUNTERS, NUMBERS};
use switch::{refused, show, shown};
use turns::turns;
use vault::Password;
use writes::apply;

// The stages of a tick: lamp with output, dimmer, the paddles in their order, the save. Most ticks complete no gesture and save
// nothing: they run their timers, and a motion. (The answer of `complete` goes by a local: returned as it comes, it would be written
// in bytes and read back in one piece.)
pub fn tick(
    counters: &mut [u16; COUNTERS],
    numbers: &mut [u8; NUMBERS],
    paddles: &mut [u8; BYTES],
    all: &mut [u8; 256],
    out: &mut [u8],
) -> Answer
    ensures { Responds tick counters.old numbers.old paddles.old all.old out.old result counters.new numbers.new paddles.new all.new out.new }
{
    if out.len() < ROOM {
        return refused(Refusal::Room, counters, numbers, all);
    }
    if save_in(counters) == 0 {
        let answer = complete(counters, numbers, paddles, all, out);
        return answer;
    }
    if !panel::quiet(paddles) {
        let answer = complete(counters, numbers, paddles, all, out);
        return answer;
    }
    panel::run(paddles);
    pass(counters, numbers);
    shown(0, Sent::none(), counters, numbers, all)
}

// A tick that completes a gesture, or saves the level. Taps that move the mode, and are alone, send nothing.
fn complete(
    counters: &mut [u16; COUNTERS],
    numbers: &mut [u8; NUMBERS],
    paddles: &mut [u8; BYTES],
    all: &mut [u8; 256],
    out: &mut [u8],
) -> Answer
    ensures { Ticks counters.old numbers.old paddles.old all.old out.old result counters.new numbers.new paddles.new all.new out.new }
{
    let gestures = panel::tick(paddles);
    match lone(gestures) {
        Some(taps) if shifts(mode_in(numbers), taps) => {
            shift(taps, counters, numbers, all);
            shown(0, Sent::none(), counters, numbers, all)
        }
        _ => turn(gestures, counters, numbers, all, out),
    }
}

// A tick with all its stages: paddles may act and send, the level may be saved.
fn turn(
    gestures: [Option<Gesture>; PADDLES],
    counters: &mut [u16; COUNTERS],
    numbers: &mut [u8; NUMBERS],
    all: &mut [u8; 256],
    out: &mut [u8],
) -> Answer
    ensures { Turns gestures counters.old numbers.old all.old out.old result counters.new numbers.new all.new out.new }
{
    let core = core_of(counters, numbers).aged();
    let after = turns(core, password_of(numbers), gestures, all);
    let effect = after.core.saved();
    let write = effect.write;
    apply(write, b"", all);
    let next = effect.core;
    finish(
        next,
        after.password,
        after.outbox,
        counters,
        numbers,
        all,
        out,
    )
}

// The end of such a tick: what is to be sent is laid and signalled, and the core is kept and shown.
fn finish(
    core: Core,
    password: Password,
    outbox: Outbox,
    counters: &mut [u16; COUNTERS],
    numbers: &mut [u8; NUMBERS],
    all: &[u8; 256],
    out: &mut [u8],
) -> Answer
    ensures { Finishes core password (packets_in outbox) counters.old numbers.old all.now out.old result counters.new numbers.new out.new }
{
    let sent = outbox.lay(out);
    let next = signalled_on(core, sent.count);
    keep(next, password, counters, numbers);
    show(0, sent, next, all)
}

// A tick that sends begins the red signal, and no other.
#[tactic(auto, unfolding(switch::specs::Code::signalled_on))]
fn signalled_on(core: Core, count: u8) -> Core
    ensures { result ≡ signalled_on count core }
{
    if count == 0 {
        return core;
    }
    core.signalled(Colour::Red)
}
