// What the paddles' gestures do within one event: each acts on what the one before it has left, and notes what it sends.
#![tactic(auto)]

ghost use Rattle.std.specs.Prelude.{[]};
ghost use Rattle.vault.specs.Job.{nothing};
ghost use Rattle.outbox.specs.Code.{packets_in};
ghost use Rattle.turns.specs.Turns.{moment};
ghost use Rattle.turns.specs.Code.{turns_by, Stands, TakesTurn, Turned};

use acts::Core;
use model::PADDLES;
use outbox::Outbox;
use paddle::Gesture;
use post::Note;
use units::Percent;
use vault::Password;

// What a gesture leaves: the core and the password after it, and the note of what it sends, if it sends.
#[derive(Clone, Copy)]
struct After {
    core: Core,
    password: Password,
    note: Option<Note>,
}

// What the gestures so far leave, with all that they send.
#[derive(Clone, Copy)]
pub struct AfterAll {
    pub core: Core,
    pub password: Password,
    pub outbox: Outbox,
}

// The gestures of a tick in the order of the paddles.
pub fn turns(
    core: Core,
    password: Password,
    gestures: [Option<Gesture>; PADDLES],
    all: &mut [u8; 256],
) -> AfterAll
    ensures { Stands (turns_by 0 gestures (moment all.old core [] nothing)) password result.core all.new (packets_in result.outbox) result.password }
{
    let mut next = AfterAll {
        core,
        password,
        outbox: Outbox::none(),
    };
    for (i, gesture) in gestures.iter().enumerate() {
        next = next_turn(next, i as u8, *gesture, all);
    }
    next
}

// One gesture more; where there is none, all stays.
#[tactic(auto, using(crate::proofs::Laws::takes_turn))]
fn next_turn(
    before: AfterAll,
    paddle: u8,
    gesture: Option<Gesture>,
    all: &mut [u8; 256],
) -> AfterAll
    ensures { TakesTurn paddle gesture before all.old result all.new }
{
    if gesture.is_none() {
        return before;
    }
    let outbox = before.outbox;
    let after = turned(before.core, before.password, paddle, gesture, all);
    let core = after.core;
    let password = after.password;
    AfterAll {
        core,
        password,
        outbox: outbox.with(after.note),
    }
}

// The act first, then the packet: in the mode that the gesture finds, with the registers and the percent after the act.
fn turned(
    core: Core,
    password: Password,
    paddle: u8,
    gesture: Option<Gesture>,
    all: &mut [u8; 256],
) -> After
    ensures { Turned paddle gesture core password all.old result all.new }
{
    let mode = core.mode;
    let effect = gestures::act(core, all, paddle, gesture);
    let next = effect.core;
    let write = effect.write;
    writes::apply(write, b"", all);
    let dimmer = next.dimmer;
    let percent = Percent::from(dimmer.level);
    After {
        core: next,
        password: writes::password(write, b"", password),
        note: herald::announce(all, mode, paddle, gesture, percent),
    }
}
