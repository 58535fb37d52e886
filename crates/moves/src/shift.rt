// A tick whose one gesture is a run of taps that moves the mode. It sends nothing.
ghost use Rattle.std.specs.Prelude.{◌≡◌, Some};
ghost use Rattle.paddle.specs.declared.Gesture.TheVariants.{Taps};
ghost use Rattle.gestures.specs.Gestures.{leads};
ghost use Rattle.moves.specs.Code.{lone, shifts, Shifts, Writes};

use crate::{move_on, save};
use model::PADDLES;
use paddle::Gesture;
use places::Counter;
use state::parts::{keep_mode, keep_password, keep_timers, lamp_of, mode_in, password_of};
use state::{COUNTERS, NUMBERS};
use vault::Mode;
use writes::{Write, apply, password};

// The taps of a tick that completes one run of them and nothing else.
#[tactic(auto, using(crate::proofs::Laws::beside_next), unfolding(crate::specs::Code::alongside, crate::specs::Code::lone))]
pub fn lone(gestures: [Option<Gesture>; PADDLES]) -> Option<u8>
    ensures { result ≡ lone gestures }
{
    let mut so_far = None;
    for gesture in gestures {
        match (gesture, so_far) {
            (None, _) => {}
            (Some(Gesture::Taps(taps)), None) => so_far = Some(taps),
            _ => return None,
        }
    }
    so_far
}

// Whether these taps move the mode.
#[tactic(auto, unfolding(crate::specs::Code::shifts))]
pub fn shifts(mode: Mode, taps: u8) -> bool
    ensures { result ≡ shifts mode taps }
{
    match mode {
        Mode::Normal => taps == 5,
        Mode::Setup => taps == 2 || taps == 10,
        Mode::Factory => taps == 2,
    }
}

pub fn shift(
    taps: u8,
    counters: &mut [u16; COUNTERS],
    numbers: &mut [u8; NUMBERS],
    all: &mut [u8; 256],
)
    ensures { Shifts taps counters.old numbers.old all.old counters.new numbers.new all.new }
{
    let mode = mode_in(numbers);
    move_on(counters, numbers);
    let lamp = lamp_of(counters, numbers).tick().entered();
    keep_timers(lamp, counters);
    keep_mode(led(mode, taps), numbers);
    write_by(mode, taps, numbers, all);
    save(counters, numbers, all);
}

// The mode that taps lead to.
#[tactic(auto, unfolding(gestures::specs::Gestures::leads))]
fn led(mode: Mode, taps: u8) -> Mode
    ensures { result ≡ leads mode (Some (Taps taps)) }
{
    match (mode, taps) {
        (Mode::Normal, 5) => Mode::Setup,
        (Mode::Setup, 10) => Mode::Factory,
        (Mode::Setup | Mode::Factory, 2) => Mode::Normal,
        _ => mode,
    }
}

// What they write is written.
#[tactic(auto, using(crate::proofs::Laws::keeps_password), unfolding(gestures::specs::Gestures::writes, writes::specs::Writes::applied, writes::specs::Writes::change_of, writes::specs::Writes::change_at))]
fn write_by(mode: Mode, taps: u8, numbers: &mut [u8; NUMBERS], all: &mut [u8; 256])
    ensures { Writes mode taps numbers.old all.old numbers.new all.new }
{
    match (mode, taps) {
        (Mode::Normal, 5) => apply(Write::Count(Counter::Setups), b"", all),
        (Mode::Setup, 10) => {
            keep_password(password(Write::Factory, b"", password_of(numbers)), numbers);
            apply(Write::Factory, b"", all);
        }
        _ => {}
    }
}
