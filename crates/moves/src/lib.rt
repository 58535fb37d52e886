// What a tick moves in place: the timers and the motion of the core, the save, and the mode where one run of taps is all that a tick
// completes.
#![tactic(auto)]

ghost use Rattle.std.specs.Prelude.{◌≡◌};
ghost use Rattle.state.specs.State.{core_of, password_of};
ghost use Rattle.state.specs.Code.{CoreKept};
ghost use Rattle.moves.specs.Code.{passed_core, Moves, Saves};

use acts::next_save;
use state::parts::{
    dimmer_of, idle, keep_dimmer, keep_left, keep_save, keep_timers, lamp_of, left_in, level_in,
    save_in,
};
use state::{COUNTERS, NUMBERS};
use timers::Timer;
use units::Percent;
use writes::{Write, apply};

pub mod shift;

// A tick that completes no gesture and saves nothing.
pub fn pass(counters: &mut [u16; COUNTERS], numbers: &mut [u8; NUMBERS])
    ensures { CoreKept (passed_core (core_of counters.old numbers.old)) (password_of numbers.old) counters.old numbers.old counters.new numbers.new }
{
    move_on(counters, numbers);
    let save = save_in(counters).run();
    let lamp = lamp_of(counters, numbers).tick();
    keep_save(save, counters);
    keep_timers(lamp, counters);
}

// Between two beats of a motion its metronome runs, and nothing else.
#[tactic(auto, using(crate::proofs::Laws::moves_beat))]
fn move_on(counters: &mut [u16; COUNTERS], numbers: &mut [u8; NUMBERS])
    ensures { Moves counters.old numbers.old counters.new numbers.new }
{
    if idle(numbers) {
        return;
    }
    let left = left_in(counters);
    if left == 0 {
        let dimmer = dimmer_of(counters, numbers).tick();
        keep_dimmer(dimmer, counters, numbers);
        return;
    }
    keep_left(left.run(), counters);
}

// The last stage of a tick: the save, where it is due.
#[tactic(auto, unfolding(acts::specs::Core::saved, acts::specs::Core::to_save, state::specs::State::core_of, state::specs::State::dimmer_of, writes::specs::Writes::applied))]
fn save(counters: &mut [u16; COUNTERS], numbers: &[u8; NUMBERS], all: &mut [u8; 256])
    ensures { Saves counters.old numbers.now all.old counters.new all.new }
{
    let left = save_in(counters);
    keep_save(next_save(left), counters);
    if left != 0 {
        return;
    }
    apply(Write::Save(Percent::from(level_in(numbers))), b"", all);
}
