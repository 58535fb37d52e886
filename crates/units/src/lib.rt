// A level on its two scales, steps and percents. They are two types, and a conversion leads from each to the other.
#![tactic(auto, unfolding(crate::specs::Units::step_of, crate::specs::Units::percent_of, crate::specs::Units::opposite))]

ghost use Rattle.std.specs.Prelude.{◌≡◌};
ghost use Rattle.units.specs.Units.{step_of, percent_of, opposite};

// A level in steps, 0 to 200.
#[derive(Clone, Copy, Debug, PartialEq, Eq, PartialOrd, Ord)]
pub struct Step(pub u8);

// A level in percents, 0 to 100.
#[derive(Clone, Copy, Debug, PartialEq, Eq)]
pub struct Percent(pub u8);

impl From<Percent> for Step {
    ghost from_gives = { λ percent step. step ≡ step_of percent };

    fn from(percent: Percent) -> Step {
        Step(2 * percent.0.min(100))
    }
}

impl From<Step> for Percent {
    ghost from_gives = { λ step percent. percent ≡ percent_of step };

    fn from(step: Step) -> Percent {
        Percent(step.0.min(200) / 2)
    }
}

impl Step {
    pub const FULL: Step = Step(200);

    pub const OFF: Step = Step(0);

    // Off becomes full, and any other step off.
    pub fn opposite(self) -> Step
        ensures { result ≡ opposite self }
    {
        if self == Step::OFF {
            Step::FULL
        } else {
            Step::OFF
        }
    }
}
