// The two kinds of tick counter that a switch has. Both count down and know no date: a timer stands still at 0, and a
// metronome beats at the tick that finds it at 0 and starts over.
#![tactic(auto, unfolding(crate::specs::Timers::less, crate::specs::Timers::metronome))]

ghost use Rattle.std.specs.Prelude.{◌≡◌, ℕ};
ghost use Rattle.timers.specs.Timers.{less, metronome};

// A number of ticks left that a timer stands on: a word, or a byte as a paddle's timers are.
pub trait Timer: Copy {
    ghost left: { Self → ℕ };

    // A timer one tick later.
    fn run(self) -> Self
        ensures { left result ≡ less (left self) };
}

impl Timer for u16 {
    ghost left = { λ n. n };

    fn run(self) -> u16 {
        self.saturating_sub(1)
    }
}

impl Timer for u8 {
    ghost left = { λ n. n };

    fn run(self) -> u8 {
        self.saturating_sub(1)
    }
}

// A metronome one tick later.
pub fn turn(period: u16, left: u16) -> u16
    ensures { result ≡ metronome period left }
{
    if left == 0 {
        return period.run();
    }
    left.run()
}
