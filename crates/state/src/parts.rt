// The core of a switch and its password in the lent counters and numbers. A number that still stands for the same is left as it
// is, and of a motion only what it has is written.
//
// Stays as it is: counters and numbers are two arrays, since the C interface lends them so, and a signature's `&` or `&mut` says which of
// them an event can change.
ghost use Rattle.std.specs.Prelude.{◌≡◌};
ghost use Rattle.state.specs.State.{mode_in, level_in, save_in, password_of, dimmer_of, lamp_of, core_of};
ghost use Rattle.state.specs.Keeping.{kept_mode, kept_hue, kept_kind, kept_target, kept_levels, kept_password, kept_numbers, kept_course, kept_save, kept_timers, kept_counters};
ghost use Rattle.state.specs.Code.{idle_in, left_in, kept_left, LampKept, DimmerKept, CoreKept};

use crate::kinds::{kind_number, motion_of};
use crate::{COUNTERS, NUMBERS};
use acts::Core;
use dimmer::{Dimmer, Motion};
use lamp::{Colour, Lamp};
use units::Step;
use vault::{Mode, Password};

// Where each counter stands. BLINK is the lamp's signal.
const VERSION: usize = 0;

const PHASE: usize = 1;

const BLINK: usize = 2;

const FLASH: usize = 3;

const SAVE: usize = 4;

const LEFT: usize = 5;

const PERIOD: usize = 6;

// Where each number stands.
const LEVEL: usize = 0;

const KIND: usize = 1;

const MODE: usize = 2;

const HUE: usize = 3;

const LAST: usize = 4;

const TARGET: usize = 5;

const FIRST: usize = 6;

const SECOND: usize = 7;

#[tactic(auto, unfolding(crate::specs::State::core_of))]
pub fn core_of(counters: &[u16; COUNTERS], numbers: &[u8; NUMBERS]) -> Core
    ensures { result ≡ core_of counters.now numbers.now }
{
    Core {
        mode: mode_in(numbers),
        dimmer: dimmer_of(counters, numbers),
        lamp: lamp_of(counters, numbers),
        save: save_in(counters),
    }
}

#[tactic(auto, unfolding(crate::specs::State::mode_in))]
pub fn mode_in(numbers: &[u8; NUMBERS]) -> Mode
    ensures { result ≡ mode_in numbers.now }
{
    Mode::from(numbers[MODE])
}

#[tactic(auto, unfolding(crate::specs::State::level_in))]
pub fn level_in(numbers: &[u8; NUMBERS]) -> Step
    ensures { result ≡ level_in numbers.now }
{
    Step(numbers[LEVEL])
}

// The ticks left before the save.
#[tactic(auto, unfolding(crate::specs::State::save_in))]
pub fn save_in(counters: &[u16; COUNTERS]) -> u16
    ensures { result ≡ save_in counters.now }
{
    counters[SAVE]
}

// What a motion has left to its next step or flip.
#[tactic(auto, unfolding(crate::specs::Code::left_in))]
pub fn left_in(counters: &[u16; COUNTERS]) -> u16
    ensures { result ≡ left_in counters.now }
{
    counters[LEFT]
}

// Whether nothing moves the level.
#[tactic(auto, unfolding(crate::specs::Code::idle_in))]
pub fn idle(numbers: &[u8; NUMBERS]) -> bool
    ensures { result ≡ idle_in numbers.now }
{
    let kind = numbers[KIND];
    kind == 0 || 2 < kind
}

#[tactic(auto, unfolding(crate::specs::State::password_of))]
pub fn password_of(numbers: &[u8; NUMBERS]) -> Password
    ensures { result ≡ password_of numbers.now }
{
    Password(numbers[FIRST], numbers[SECOND])
}

#[tactic(auto, unfolding(crate::specs::State::dimmer_of))]
pub fn dimmer_of(counters: &[u16; COUNTERS], numbers: &[u8; NUMBERS]) -> Dimmer
    ensures { result ≡ dimmer_of counters.now numbers.now }
{
    Dimmer {
        level: level_in(numbers),
        last: Step(numbers[LAST]),
        motion: motion_of(
            numbers[KIND],
            numbers[TARGET],
            counters[PERIOD],
            counters[LEFT],
        ),
    }
}

#[tactic(auto, unfolding(crate::specs::State::lamp_of))]
pub fn lamp_of(counters: &[u16; COUNTERS], numbers: &[u8; NUMBERS]) -> Lamp
    ensures { result ≡ lamp_of counters.now numbers.now }
{
    Lamp {
        version: counters[VERSION],
        phase: counters[PHASE],
        blink: counters[BLINK],
        hue: Colour::from(numbers[HUE]),
        flash: counters[FLASH],
    }
}

// All of it, the password too.
#[tactic(auto, unfolding(crate::specs::Keeping::kept_counters, crate::specs::Keeping::kept_numbers))]
pub fn keep(
    core: Core,
    password: Password,
    counters: &mut [u16; COUNTERS],
    numbers: &mut [u8; NUMBERS],
)
    ensures { CoreKept core password counters.old numbers.old counters.new numbers.new }
{
    keep_password(password, numbers);
    keep_mode(core.mode, numbers);
    keep_dimmer(core.dimmer, counters, numbers);
    keep_save(core.save, counters);
    keep_lamp(core.lamp, counters, numbers);
}

#[tactic(auto, unfolding(crate::specs::Keeping::kept_password))]
pub fn keep_password(password: Password, numbers: &mut [u8; NUMBERS])
    ensures { numbers.new ≡ kept_password password numbers.old }
{
    numbers[FIRST] = password.0;
    numbers[SECOND] = password.1;
}

#[tactic(auto, using(crate::proofs::Laws::mode_anew, crate::proofs::Laws::mode_stays))]
pub fn keep_mode(mode: Mode, numbers: &mut [u8; NUMBERS])
    ensures { numbers.new ≡ kept_mode mode numbers.old }
{
    if Mode::from(numbers[MODE]) != mode {
        numbers[MODE] = u8::from(mode);
    }
}

pub fn keep_dimmer(dimmer: Dimmer, counters: &mut [u16; COUNTERS], numbers: &mut [u8; NUMBERS])
    ensures { DimmerKept dimmer counters.old numbers.old counters.new numbers.new }
{
    keep_course(dimmer.motion, counters);
    keep_levels(dimmer, numbers);
}

#[tactic(auto, unfolding(crate::specs::Keeping::kept_course))]
fn keep_course(motion: Motion, counters: &mut [u16; COUNTERS])
    ensures { counters.new ≡ kept_course motion counters.old }
{
    match motion {
        Motion::Idle => {}
        Motion::Fading { period, left, .. } | Motion::Blinking { period, left } => {
            counters[PERIOD] = period;
            counters[LEFT] = left;
        }
    }
}

// All that a tick between two beats of a motion changes.
#[tactic(auto, unfolding(crate::specs::Code::kept_left))]
pub fn keep_left(left: u16, counters: &mut [u16; COUNTERS])
    ensures { counters.new ≡ kept_left left counters.old }
{
    counters[LEFT] = left;
}

#[tactic(auto, unfolding(crate::specs::Keeping::kept_levels))]
fn keep_levels(dimmer: Dimmer, numbers: &mut [u8; NUMBERS])
    ensures { numbers.new ≡ kept_levels dimmer numbers.old }
{
    numbers[LAST] = dimmer.last.0;
    keep_target(dimmer.motion, numbers);
    numbers[LEVEL] = dimmer.level.0;
    keep_kind(dimmer.motion, numbers);
}

#[tactic(auto, unfolding(crate::specs::Keeping::kept_target))]
fn keep_target(motion: Motion, numbers: &mut [u8; NUMBERS])
    ensures { numbers.new ≡ kept_target motion numbers.old }
{
    if let Motion::Fading { target, .. } = motion {
        numbers[TARGET] = target.0;
    }
}

#[tactic(auto, using(words::proofs::Laws::kept_same), unfolding(crate::specs::Keeping::kept_kind, words::specs::Words::kept_at))]
fn keep_kind(motion: Motion, numbers: &mut [u8; NUMBERS])
    ensures { numbers.new ≡ kept_kind motion numbers.old }
{
    let kind = kind_number(motion);
    if kind_number(motion_of(numbers[KIND], 0, 0, 0)) != kind {
        numbers[KIND] = kind;
    }
}

#[tactic(auto, unfolding(crate::specs::Keeping::kept_save))]
pub fn keep_save(save: u16, counters: &mut [u16; COUNTERS])
    ensures { counters.new ≡ kept_save save counters.old }
{
    counters[SAVE] = save;
}

pub fn keep_lamp(lamp: Lamp, counters: &mut [u16; COUNTERS], numbers: &mut [u8; NUMBERS])
    ensures { LampKept lamp counters.old numbers.old counters.new numbers.new }
{
    keep_timers(lamp, counters);
    keep_hue(lamp.hue, numbers);
}

#[tactic(auto, unfolding(crate::specs::Keeping::kept_timers))]
pub fn keep_timers(lamp: Lamp, counters: &mut [u16; COUNTERS])
    ensures { counters.new ≡ kept_timers lamp counters.old }
{
    counters[VERSION] = lamp.version;
    counters[PHASE] = lamp.phase;
    counters[BLINK] = lamp.blink;
    counters[FLASH] = lamp.flash;
}

#[tactic(auto, using(crate::proofs::Laws::hue_anew, crate::proofs::Laws::hue_stays))]
fn keep_hue(hue: Colour, numbers: &mut [u8; NUMBERS])
    ensures { numbers.new ≡ kept_hue hue numbers.old }
{
    if Colour::from(numbers[HUE]) != hue {
        numbers[HUE] = u8::from(hue);
    }
}
