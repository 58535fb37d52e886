// What the bytes that set a level stand for: the options, a rate's ticks, the target, what is remembered of it, and a Blink's value.
#![tactic(auto)]

ghost use Rattle.std.specs.Prelude.{◌≡◌};
ghost use Rattle.levels.specs.Levels.{options_of, ticks_per_step, wanted, allowed, remembered, rate_of, flip_ticks};

use units::{Percent, Step};

// Register 0x8D: what holds when a level is set.
#[derive(Clone, Copy)]
pub struct Options {
    pub rate: u8,
    pub capable: bool,
}

// The ticks of one step by rate; at rate 0 the level is there at once.
// Stays as it is: 01 names the form, a const table of sixteen counts.
const TICKS: [u16; 16] = [
    0, 1, 2, 4, 6, 8, 12, 24, 36, 72, 144, 360, 720, 1080, 2160, 4320,
];

// The low four bits are the default rate; the next says whether the load can be dimmed.
impl From<u8> for Options {
    ghost from_gives = { λ byte options. options ≡ options_of byte };

    #[tactic(auto, unfolding(crate::specs::Levels::options_of))]
    fn from(byte: u8) -> Options {
        Options {
            rate: byte & 15,
            capable: (byte >> 4) & 1 == 1,
        }
    }
}

impl Options {
    // A rate past 15 is the default one; a load that cannot be dimmed has rate 0 alone.
    #[tactic(auto, unfolding(crate::specs::Levels::rate_of))]
    pub fn rate(self, asked: u8) -> u8
        ensures { result ≡ rate_of self asked }
    {
        if self.capable {
            if 15 < asked {
                return self.rate;
            }
            return asked;
        }
        0
    }
}

// The ticks of one step at a rate; past 15 they are 0.
#[tactic(auto, unfolding(crate::specs::Levels::ticks_per_step))]
pub fn ticks(rate: u8) -> u16
    ensures { result ≡ ticks_per_step rate }
{
    TICKS.get(rate as usize).copied().unwrap_or(0)
}

#[tactic(auto, unfolding(crate::specs::Levels::wanted))]
pub fn wanted(level: u8, last: Step) -> Step
    ensures { result ≡ wanted level last }
{
    if 100 < level {
        return last;
    }
    Step::from(Percent(level))
}

// A load that cannot be dimmed is off or full.
#[tactic(auto, unfolding(crate::specs::Levels::allowed))]
pub fn allowed(capable: bool, target: Step) -> Step
    ensures { result ≡ allowed capable target }
{
    if capable || target == Step::OFF {
        return target;
    }
    Step::FULL
}

// A step other than 0 is remembered as the Last On Level.
#[tactic(auto, unfolding(crate::specs::Levels::remembered))]
pub fn remembered(step: Step, last: Step) -> Step
    ensures { result ≡ remembered step last }
{
    if step == Step::OFF {
        return last;
    }
    step
}

// The ticks from one flip of a Blink to the next.
#[tactic(auto, unfolding(crate::specs::Levels::flip_ticks))]
pub fn blink_ticks(value: u8) -> u16
    ensures { result ≡ flip_ticks value }
{
    if value == 0 {
        return 120;
    }
    4 * (value as u16)
}
