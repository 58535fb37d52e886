// The paddles of a switch in their lent bytes, kind by kind, so that what most ticks do to all of them is a plain loop: of each
// paddle in order its contacts, then of each its taps, then hold, then gap. Of contacts bit 0 says that the local one is down and
// bit 1 that the slave one is; the bits above them say nothing.
// Stays as it is: a paddle goes by a plain index and a `requires`. A type for it would be made anew in every loop and taken apart at each
// byte.
#![tactic(auto)]

ghost use Rattle.std.specs.Prelude.{◌≡◌, ◌<◌};
ghost use Rattle.paddle.specs.Paddle.{gesture};
ghost use Rattle.model.specs.Model.{paddle_count};
ghost use Rattle.panel.specs.Panel.{local_in, slave_in, contacts_number, paddle_from, paddles_of, pressed_at, kept_contacts, kept_paddle, kept_paddles, fresh_paddles};
ghost use Rattle.panel.specs.Code.{loud_at, quiet_bytes, left_by, used_up, ran_at, ran_bytes, Lifts, Ticks, TicksAt};

use model::{PADDLES, kind_of, paddle_of};
use paddle::{Gesture, Paddle};
use timers::Timer;

// Of a paddle four bytes are kept.
pub const BYTES: usize = 4 * PADDLES;

// Where the first paddle's byte of each kind stands.
const CONTACTS: usize = 0;

const TAPS: usize = PADDLES;

const HOLD: usize = 2 * PADDLES;

const GAP: usize = 3 * PADDLES;

// All of them up, and nothing counted.
#[tactic(auto, using(crate::proofs::Loops::risen_more), unfolding(crate::specs::Panel::kept_from, crate::specs::Panel::fresh_from))]
pub fn raise(paddles: &mut [u8; BYTES])
    ensures { paddles.new ≡ kept_paddles fresh_paddles paddles.old }
{
    for i in 0..PADDLES {
        keep_paddle(i, Paddle::up(), paddles);
    }
}

// A press edge of a contact.
#[tactic(auto, using(crate::proofs::Laws::paddle_low, crate::proofs::Laws::press_kept))]
pub fn press(contact: u8, paddles: &mut [u8; BYTES])
    ensures { paddles.new ≡ kept_paddles (pressed_at contact (paddles_of paddles.old)) paddles.old }
{
    let i = paddle_of(contact);
    let pressed = paddle_at(i, paddles).press(kind_of(contact));
    keep_paddle(i, pressed, paddles);
}

// A release edge of a contact, and the gesture that it completes, if it does.
#[tactic(auto, using(crate::proofs::Laws::paddle_low))]
pub fn release(contact: u8, paddles: &mut [u8; BYTES]) -> Option<Gesture>
    ensures { Lifts contact paddles.old result paddles.new }
{
    let i = paddle_of(contact);
    let turn = paddle_at(i, paddles).release(kind_of(contact));
    keep_paddle(i, turn.paddle, paddles);
    turn.gesture
}

// Whether the next tick completes no gesture.
#[tactic(auto, using(crate::proofs::Loops::loud_more), unfolding(crate::specs::Code::loud_from, crate::specs::Code::quiet_bytes))]
pub fn quiet(paddles: &[u8; BYTES]) -> bool
    ensures { result ≡ quiet_bytes paddles.now }
{
    let mut loud = false;
    for i in 0..PADDLES {
        loud |= loud_at(i, paddles);
    }
    !loud
}

// Whether the next tick completes a gesture of the paddle: Hold while it is down, or up the close of a run. All four bytes are read
// before the test.
#[tactic(auto, unfolding(crate::specs::Code::loud_at))]
fn loud_at(i: usize, paddles: &[u8; BYTES]) -> bool
    requires { i < paddle_count }
    ensures { result ≡ loud_at i paddles.now }
{
    let down = paddles[CONTACTS + i] & 3 != 0;
    let hold = paddles[HOLD + i] == 1;
    let gap = paddles[GAP + i] <= 1;
    let taps = paddles[TAPS + i] != 0;
    if down {
        return hold;
    }
    gap & taps
}

// A tick that completes no gesture: the timers run.
#[tactic(auto, using(crate::proofs::Loops::ran_more), unfolding(crate::specs::Code::ran_from, crate::specs::Code::ran_bytes))]
pub fn run(paddles: &mut [u8; BYTES])
    ensures { paddles.new ≡ ran_bytes paddles.old }
{
    for i in 0..PADDLES {
        run_at(i, paddles);
    }
}

#[tactic(auto, unfolding(crate::specs::Code::ran_at))]
fn run_at(i: usize, paddles: &mut [u8; BYTES])
    requires { i < paddle_count }
    ensures { paddles.new ≡ ran_at i paddles.old }
{
    let hold = paddles[HOLD + i];
    paddles[HOLD + i] = left(paddles[CONTACTS + i], hold);
    let gap = paddles[GAP + i];
    paddles[GAP + i] = gap.run();
}

// Hold comes nearer only while the paddle is down.
#[tactic(auto, unfolding(crate::specs::Code::left_by))]
fn left(contacts: u8, hold: u8) -> u8
    ensures { result ≡ left_by contacts hold }
{
    if contacts & 3 == 0 {
        return hold;
    }
    hold.run()
}

// Any tick, and the gesture of each paddle.
#[tactic(auto, using(crate::proofs::Loops::ticking_ends), unfolding(crate::specs::Panel::paddles_from, crate::specs::Panel::kept_from))]
pub fn tick(paddles: &mut [u8; BYTES]) -> [Option<Gesture>; PADDLES]
    ensures { Ticks paddles.old result paddles.new }
{
    let mut gestures = [None; PADDLES];
    for i in 0..PADDLES {
        gestures[i] = tick_at(i, paddles);
    }
    gestures
}

#[tactic(auto, using(crate::proofs::Laws::ticks_at))]
fn tick_at(i: usize, paddles: &mut [u8; BYTES]) -> Option<Gesture>
    requires { i < paddle_count }
    ensures { TicksAt i paddles.old result paddles.new }
{
    let gesture = gesture_at(i, paddles);
    use_up(i, gesture, paddles);
    run_at(i, paddles);
    gesture
}

// A gesture uses up the taps.
#[tactic(auto, unfolding(crate::specs::Code::used_up))]
fn use_up(i: usize, gesture: Option<Gesture>, paddles: &mut [u8; BYTES])
    requires { i < paddle_count }
    ensures { paddles.new ≡ used_up i gesture paddles.old }
{
    if gesture.is_none() {
        return;
    }
    paddles[TAPS + i] = 0;
}

// The gesture that the next tick completes.
#[tactic(auto, using(crate::proofs::Laws::gesture_none, crate::proofs::Laws::gesture_taps, crate::proofs::Laws::gesture_hold))]
fn gesture_at(i: usize, paddles: &[u8; BYTES]) -> Option<Gesture>
    requires { i < paddle_count }
    ensures { result ≡ gesture (paddle_from i paddles.now) }
{
    if !loud_at(i, paddles) {
        return None;
    }
    if paddles[CONTACTS + i] & 3 == 0 {
        return Some(Gesture::Taps(paddles[TAPS + i]));
    }
    Some(Gesture::Hold)
}

#[tactic(auto, unfolding(crate::specs::Panel::paddle_from))]
fn paddle_at(i: usize, paddles: &[u8; BYTES]) -> Paddle
    requires { i < paddle_count }
    ensures { result ≡ paddle_from i paddles.now }
{
    let contacts = paddles[CONTACTS + i];
    Paddle {
        local: local_in(contacts),
        slave: slave_in(contacts),
        hold: paddles[HOLD + i],
        gap: paddles[GAP + i],
        taps: paddles[TAPS + i],
    }
}

#[tactic(auto, unfolding(crate::specs::Panel::kept_paddle))]
fn keep_paddle(i: usize, paddle: Paddle, paddles: &mut [u8; BYTES])
    requires { i < paddle_count }
    ensures { paddles.new ≡ kept_paddle i paddle paddles.old }
{
    keep_contacts(i, contacts_number(paddle.local, paddle.slave), paddles);
    paddles[TAPS + i] = paddle.taps;
    paddles[HOLD + i] = paddle.hold;
    paddles[GAP + i] = paddle.gap;
}

// Contacts with higher bits stay as they are while they stand for the same.
#[tactic(auto, unfolding(crate::specs::Panel::kept_contacts, words::specs::Words::kept_at))]
fn keep_contacts(i: usize, new: u8, paddles: &mut [u8; BYTES])
    requires { i < paddle_count }
    ensures { paddles.new ≡ kept_contacts i new paddles.old }
{
    let old = paddles[CONTACTS + i];
    if contacts_number(local_in(old), slave_in(old)) != new {
        paddles[CONTACTS + i] = new;
    }
}

// Stays as it is: the byte is C's, and what its upper bits hold is kept, so no type turns it there and back.
// Whether the local contact is down.
#[tactic(auto, unfolding(crate::specs::Panel::local_in))]
fn local_in(contacts: u8) -> bool
    ensures { result ≡ local_in contacts }
{
    contacts & 1 == 1
}

// Whether the slave contact is.
#[tactic(auto, unfolding(crate::specs::Panel::slave_in))]
fn slave_in(contacts: u8) -> bool
    ensures { result ≡ slave_in contacts }
{
    contacts >> 1 & 1 == 1
}

#[tactic(auto, unfolding(crate::specs::Panel::contacts_number))]
fn contacts_number(local: bool, slave: bool) -> u8
    ensures { result ≡ contacts_number local slave }
{
    (local as u8) + 2 * (slave as u8)
}
