// The dimmer: its level, the Last On Level, and what moves the level. Methods take the state and hand the next one back.
#![tactic(auto)]

ghost use Rattle.std.specs.Prelude.{◌≡◌};
ghost use Rattle.dimmer.specs.declared.Motion.TheVariants.{Idle, Fading};
ghost use Rattle.dimmer.specs.Dimmer.{dimmer, heading_to, fresh_dimmer, set_to, stopped, set_blinking, towards, faded, flickered, ticked};

use levels::{Options, allowed, blink_ticks, remembered, ticks, wanted};
use timers::{Timer, turn};
use units::Step;

// What moves the level. `left` is the metronome of a fade's steps or a blink's flips.
// Stays as it is: 01 names the form, an enum of idle, fading or blinking in the dimmer, and no Option.
#[derive(Clone, Copy, Debug, PartialEq, Eq)]
pub enum Motion {
    Idle,
    Fading {
        target: Step,
        period: u16,
        left: u16,
    },
    Blinking {
        period: u16,
        left: u16,
    },
}

// `last`: the Last On Level.
#[derive(Clone, Copy)]
pub struct Dimmer {
    pub level: Step,
    pub last: Step,
    pub motion: Motion,
}

impl Dimmer {
    // The dimmer after a start or restart.
    #[tactic(auto, unfolding(crate::specs::Dimmer::fresh_dimmer))]
    pub fn fresh(level: Step) -> Dimmer
        ensures { result ≡ fresh_dimmer level }
    {
        Dimmer {
            level,
            last: Step::FULL,
            motion: Motion::Idle,
        }
    }

    // Sets a level in percents; one past 100 is the Last On Level.
    #[tactic(auto, unfolding(crate::specs::Dimmer::set_to))]
    pub fn set(self, level: u8, rate: u8, options: Options) -> Dimmer
        ensures { result ≡ set_to self level rate options }
    {
        let target = allowed(options.capable, wanted(level, self.last));
        let last = remembered(target, self.last);
        Dimmer { last, ..self }.moved(target, ticks(options.rate(rate)))
    }

    // Stops what runs and remembers its step.
    #[tactic(auto, unfolding(crate::specs::Dimmer::stopped, crate::specs::Dimmer::stopped_from))]
    pub fn stop(self) -> Dimmer
        ensures { result ≡ stopped self }
    {
        if self.motion == Motion::Idle {
            return self;
        }
        Dimmer {
            last: remembered(self.level, self.last),
            motion: Motion::Idle,
            ..self
        }
    }

    // Full at once, and then a flip every four ticks times the value.
    #[tactic(auto, unfolding(crate::specs::Dimmer::set_blinking))]
    pub fn blink(self, value: u8) -> Dimmer
        ensures { result ≡ set_blinking self value }
    {
        let period = blink_ticks(value);
        Dimmer {
            level: Step::FULL,
            motion: Motion::Blinking {
                period,
                left: period.run(),
            },
            ..self
        }
    }

    #[tactic(auto, unfolding(crate::specs::Dimmer::ticked, crate::specs::Dimmer::ticked_from))]
    pub fn tick(self) -> Dimmer
        ensures { result ≡ ticked self }
    {
        match self.motion {
            Motion::Idle => self,
            Motion::Fading {
                target,
                period,
                left,
            } => self.faded(target, period, left),
            Motion::Blinking { period, left } => self.flickered(period, left),
        }
    }

    // A fade begins where there is a way to go and time to take for it.
    #[tactic(auto, unfolding(crate::specs::Dimmer::heading_to))]
    fn moved(self, target: Step, ticks: u16) -> Dimmer
        ensures { result ≡ heading_to self.level self.last target ticks }
    {
        if ticks == 0 || self.level == target {
            return self.resting(target);
        }
        self.fading(target, ticks, ticks.run())
    }

    // One tick of a fade; with its last step it is over.
    #[tactic(auto, unfolding(crate::specs::Dimmer::faded, crate::specs::Dimmer::stepped))]
    fn faded(self, target: Step, period: u16, left: u16) -> Dimmer
        ensures { result ≡ faded self.level self.last target period left }
    {
        if 0 < left {
            return self.fading(target, period, left.run());
        }
        let level = towards(self.level, target);
        if level == target {
            return self.resting(target);
        }
        Dimmer { level, ..self }.fading(target, period, period.run())
    }

    // One tick of a blink.
    #[tactic(auto, unfolding(crate::specs::Dimmer::flickered))]
    fn flickered(self, period: u16, left: u16) -> Dimmer
        ensures { result ≡ flickered self.level self.last period left }
    {
        Dimmer {
            level: if left == 0 {
                self.level.opposite()
            } else {
                self.level
            },
            motion: Motion::Blinking {
                period,
                left: turn(period, left),
            },
            ..self
        }
    }

    fn fading(self, target: Step, period: u16, left: u16) -> Dimmer
        ensures { result ≡ dimmer self.level self.last (Fading target period left) }
    {
        Dimmer {
            motion: Motion::Fading {
                target,
                period,
                left,
            },
            ..self
        }
    }

    fn resting(self, level: Step) -> Dimmer
        ensures { result ≡ dimmer level self.last Idle }
    {
        Dimmer {
            level,
            motion: Motion::Idle,
            ..self
        }
    }
}

#[tactic(auto, unfolding(crate::specs::Dimmer::towards))]
fn towards(level: Step, target: Step) -> Step
    ensures { result ≡ towards level target }
{
    if level < target {
        Step(level.0 + 1)
    } else if target < level {
        Step(level.0 - 1)
    } else {
        level
    }
}
