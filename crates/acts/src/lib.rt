// The core of a switch, and what a tick, a level set, a stop and a new mode make of it. The registers are only read here; what
// is to be written to them comes back.
#![tactic(auto)]

ghost use Rattle.std.specs.Prelude.{◌≡◌};
ghost use Rattle.timers.specs.Timers.{metronome};
ghost use Rattle.acts.specs.Core.{save_ticks, unwritten, start_level, started, aged, to_save, saved, set_by, setting, halted, stopping, entering, signalled, opened};

use dimmer::Dimmer;
use lamp::{Colour, Lamp};
use levels::Options;
use places::Counter;
use timers::{Timer, turn};
use units::{Percent, Step};
use vault::Mode;
use writes::Write;

// Ticks from one saving of the level to the next.
const SAVE: u16 = 480;

// All that a switch holds besides its registers, its paddles and its password. `save`: the metronome of the saved level.
#[derive(Clone, Copy)]
pub struct Core {
    pub mode: Mode,
    pub dimmer: Dimmer,
    pub lamp: Lamp,
    pub save: u16,
}

// What an act leaves: the next core, and what is to be written to the registers.
#[derive(Clone, Copy)]
pub struct Effect {
    pub core: Core,
    pub write: Write,
}

impl Core {
    // As after a start or a restart.
    pub fn started(all: &[u8; 256]) -> Core
        ensures { result ≡ started all.now }
    {
        let level = start_level(places::saved(all));
        Core {
            mode: Mode::Normal,
            dimmer: Dimmer::fresh(level),
            lamp: Lamp::fresh(),
            save: SAVE.run(),
        }
    }

    // The first two stages of a tick: the lamp with the output, then the dimmer.
    pub fn aged(mut self) -> Core
        ensures { result ≡ aged self }
    {
        self.lamp = self.lamp.tick();
        self.dimmer = self.dimmer.tick();
        self
    }

    // The last stage of a tick: the save, where it is due.
    pub fn saved(mut self) -> Effect
        ensures { result ≡ saved self }
    {
        let write = self.to_save();
        self.save = next_save(self.save);
        Effect { core: self, write }
    }

    fn to_save(self) -> Write
        ensures { result ≡ to_save self }
    {
        if self.save == 0 {
            let dimmer = self.dimmer;
            return Write::Save(Percent::from(dimmer.level));
        }
        Write::Nothing
    }

    // An act that writes nothing.
    pub fn unwritten(self) -> Effect
        ensures { result ≡ unwritten self }
    {
        Effect {
            core: self,
            write: Write::Nothing,
        }
    }

    // A paddle sets a level, where it drives the load.
    pub fn setting(mut self, all: &[u8; 256], paddle: u8, level: u8, rate: u8) -> Core
        ensures { result ≡ setting all.now paddle level rate self }
    {
        if model::drives(paddle) {
            self.dimmer = set_by(self.dimmer, all, level, rate);
            return self;
        }
        self
    }

    pub fn stopping(mut self, paddle: u8) -> Core
        ensures { result ≡ stopping paddle self }
    {
        self.dimmer = halted(self.dimmer, paddle);
        self
    }

    // The lamp's signal of a packet sent or received begins.
    pub fn signalled(self, hue: Colour) -> Core
        ensures { result ≡ signalled hue self }
    {
        let mut next = self;
        next.lamp = self.lamp.blinked(hue);
        next
    }

    // A mode change: the flash and the mode blinks begin.
    pub fn entering(self, mode: Mode) -> Core
        ensures { result ≡ entering mode self }
    {
        let dimmer = self.dimmer;
        let lamp = self.lamp.entered();
        Core {
            mode,
            dimmer,
            lamp,
            save: self.save,
        }
    }

    // Setup is entered, and 0xFA counts it.
    pub fn opened(self) -> Effect
        ensures { result ≡ opened self }
    {
        Effect {
            core: self.entering(Mode::Setup),
            write: Write::Count(Counter::Setups),
        }
    }
}

// The metronome of the saved level, one tick later.
pub fn next_save(save: u16) -> u16
    ensures { result ≡ metronome save_ticks save }
{
    turn(SAVE, save)
}

// Sets a level by what 0x8D says now.
pub fn set_by(dimmer: Dimmer, all: &[u8; 256], level: u8, rate: u8) -> Dimmer
    ensures { result ≡ set_by all.now level rate dimmer }
{
    let options = Options::from(places::dimming(all));
    dimmer.set(level, rate, options)
}

// A paddle stops what runs, where it drives the load.
pub fn halted(dimmer: Dimmer, paddle: u8) -> Dimmer
    ensures { result ≡ halted paddle dimmer }
{
    if model::drives(paddle) {
        return dimmer.stop();
    }
    dimmer
}

fn start_level(saved: u8) -> Step
    ensures { result ≡ start_level saved }
{
    if 100 < saved {
        return Step::OFF;
    }
    Step::from(Percent(saved))
}
