// Motions as numbers, and back.
// Stays as it is: a motion is read from four numbers and told as its kind alone, so no pair of From would turn it there and back.
ghost use Rattle.std.specs.Prelude.{◌≡◌};
ghost use Rattle.state.specs.Kinds.{motion_of, kind_number};

use dimmer::Motion;
use units::Step;

#[tactic(auto, unfolding(crate::specs::Kinds::motion_of))]
pub fn motion_of(kind: u8, target: u8, period: u16, left: u16) -> Motion
    ensures { result ≡ motion_of kind target period left }
{
    match kind {
        1 => Motion::Fading {
            target: Step(target),
            period,
            left,
        },
        2 => Motion::Blinking { period, left },
        _ => Motion::Idle,
    }
}

#[tactic(auto, unfolding(crate::specs::Kinds::kind_number))]
pub fn kind_number(motion: Motion) -> u8
    ensures { result ≡ kind_number motion }
{
    match motion {
        Motion::Idle => 0,
        Motion::Fading { .. } => 1,
        Motion::Blinking { .. } => 2,
    }
}
