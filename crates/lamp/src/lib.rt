// The lamp in the paddle and the flash of the output: what shows, by the timers that run, the mode and the level.
#![tactic(auto)]

ghost use Rattle.std.specs.Prelude.{◌≡◌};
ghost use Rattle.lamp.specs.Lamp.{fresh_lamp, signal_set, entered, next_lamp, colour, output};
ghost use Rattle.lamp.specs.Lamp.{mode_colour, version_colour, bit_of, bit_colour, by_halves, normal_colour, diagnostic, diagnosed, by_level, colour_from, colour_number};

use timers::{Timer, turn};
use units::Step;
use vault::Mode;

// Ticks of the four version blinks.
const VERSION: u16 = 480;
// Ticks of one blink, its black included; the colour shows while HALF of them or more are left after this one.
const TURN: u16 = 120;

const HALF: u16 = 60;
// Ticks of the signal, and of the flash after a mode change.
const BLINK: u16 = 30;

const FLASH: u16 = 120;

#[derive(Clone, Copy, Debug, PartialEq, Eq)]
pub enum Colour {
    Black = 0,
    Red = 1,
    Green = 2,
    Orange = 3,
}

impl From<u8> for Colour {
    ghost from_gives = { λ number colour. colour ≡ colour_from number };

    #[tactic(auto, unfolding(crate::specs::Lamp::colour_from))]
    fn from(number: u8) -> Colour {
        match number {
            1 => Colour::Red,
            2 => Colour::Green,
            3 => Colour::Orange,
            _ => Colour::Black,
        }
    }
}

impl From<Colour> for u8 {
    ghost from_gives = { λ colour number. number ≡ colour_number colour };

    #[tactic(auto, unfolding(crate::specs::Lamp::colour_number))]
    fn from(colour: Colour) -> u8 {
        colour as u8
    }
}

// `version`, `blink`, `flash`: ticks left of the version blinks, of the signal and of the flash. `phase`: the metronome of the
// mode's blinks. `hue`: the signal's colour.
#[derive(Clone, Copy)]
pub struct Lamp {
    pub version: u16,
    pub phase: u16,
    pub blink: u16,
    pub hue: Colour,
    pub flash: u16,
}

impl Lamp {
    // As after a start or a restart.
    pub fn fresh() -> Lamp
        ensures { result ≡ fresh_lamp }
    {
        Lamp {
            version: VERSION,
            phase: 0,
            blink: 0,
            hue: Colour::Black,
            flash: 0,
        }
    }

    // A packet was sent or received: a signal begins and takes the place of an older one.
    #[tactic(auto, unfolding(crate::specs::Lamp::signal_set))]
    pub fn blinked(self, hue: Colour) -> Lamp
        ensures { result ≡ signal_set hue self }
    {
        Lamp {
            blink: BLINK,
            hue,
            ..self
        }
    }

    // The mode changed: its blinks and the flash begin.
    #[tactic(auto, unfolding(crate::specs::Lamp::entered, timers::specs::Timers::less))]
    pub fn entered(self) -> Lamp
        ensures { result ≡ entered self }
    {
        Lamp {
            phase: TURN - 1,
            flash: FLASH,
            ..self
        }
    }

    #[tactic(auto, unfolding(crate::specs::Lamp::next_lamp))]
    pub fn tick(self) -> Lamp
        ensures { result ≡ next_lamp self }
    {
        Lamp {
            version: self.version.run(),
            phase: turn(TURN, self.phase),
            blink: self.blink.run(),
            flash: self.flash.run(),
            ..self
        }
    }

    // `digit`: the low four bits of register 0x0B. `options`: register 0x8B.
    #[tactic(auto, unfolding(crate::specs::Lamp::colour, timers::specs::Timers::less))]
    pub fn colour(self, mode: Mode, digit: u8, options: u8, level: Step) -> Colour
        ensures { result ≡ colour self mode digit options level }
    {
        if 0 < self.version {
            return version_colour(digit, self.version - 1);
        }
        self.mode_colour(mode, options, level)
    }

    // The step that the output shows.
    #[tactic(auto, unfolding(crate::specs::Lamp::output, units::specs::Units::opposite))]
    pub fn output(self, level: Step) -> Step
        ensures { result ≡ output self level }
    {
        if self.flash == 0 {
            return level;
        }
        level.opposite()
    }

    #[tactic(auto, unfolding(crate::specs::Lamp::mode_colour))]
    fn mode_colour(self, mode: Mode, options: u8, level: Step) -> Colour
        ensures { result ≡ mode_colour mode self options level }
    {
        match mode {
            Mode::Setup => blinking(Colour::Green, self.phase),
            Mode::Factory => blinking(Colour::Red, self.phase),
            Mode::Normal => self.normal_colour(options, level),
        }
    }

    #[tactic(auto, unfolding(crate::specs::Lamp::normal_colour))]
    fn normal_colour(self, options: u8, level: Step) -> Colour
        ensures { result ≡ normal_colour self options level }
    {
        if diagnostic(options) {
            return self.diagnosed();
        }
        by_level(options, level)
    }

    // A signal that runs, else orange.
    #[tactic(auto, unfolding(crate::specs::Lamp::diagnosed))]
    fn diagnosed(self) -> Colour
        ensures { result ≡ diagnosed self }
    {
        if self.blink == 0 {
            return Colour::Orange;
        }
        self.hue
    }
}

// The version blinks with `left` ticks to come after this one, high bit first.
#[tactic(auto, unfolding(crate::specs::Lamp::version_colour))]
fn version_colour(digit: u8, left: u16) -> Colour
    ensures { result ≡ version_colour digit left }
{
    let number = left / TURN;
    blinking(bit_colour(bit(digit, number)), left % TURN)
}

// The version digit has the four bits 0 to 3.
#[tactic(auto, unfolding(crate::specs::Lamp::bit_of))]
fn bit(digit: u8, number: u16) -> u8
    ensures { result ≡ bit_of digit number }
{
    if 3 < number {
        return 0;
    }
    (digit >> number) & 1
}

#[tactic(auto, unfolding(crate::specs::Lamp::bit_colour))]
fn bit_colour(one: u8) -> Colour
    ensures { result ≡ bit_colour one }
{
    if one == 1 {
        return Colour::Green;
    }
    Colour::Red
}

// The colour and then black, by the ticks that are left of the blink after this one.
#[tactic(auto, unfolding(crate::specs::Lamp::by_halves))]
fn blinking(hue: Colour, phase: u16) -> Colour
    ensures { result ≡ by_halves hue phase }
{
    if HALF <= phase {
        return hue;
    }
    Colour::Black
}

#[tactic(auto, unfolding(crate::specs::Lamp::diagnostic))]
fn diagnostic(options: u8) -> bool
    ensures { result ≡ diagnostic options }
{
    (options >> 7) & 1 == 1
}

// The lowest two bits are for off, the next two for on.
#[tactic(auto, unfolding(crate::specs::Lamp::by_level))]
fn by_level(options: u8, level: Step) -> Colour
    ensures { result ≡ by_level options level }
{
    if level == Step::OFF {
        return Colour::from(options & 3);
    }
    Colour::from((options >> 2) & 3)
}
