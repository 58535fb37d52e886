// The start from a lent image, the restart, and the image that the owner saves.
#![tactic(auto)]

ghost use Rattle.std.specs.Prelude.{◌≡◌};
ghost use Rattle.registers.specs.Registers.{image_of};
ghost use Rattle.state.specs.State.{password_of};
ghost use Rattle.switch.specs.Switch.{restart};
ghost use Rattle.switch.specs.Respond.{Responds, Starts, no_answer};
ghost use Rattle.wakes.specs.Code.{Wakes};

use acts::Core;
use answers::{Answer, Refusal};
use lamp::Colour;
use model::ROOM;
use outbox::Sent;
use panel::BYTES;
use places::Counter;
use state::parts::{keep, password_of};
use state::{COUNTERS, NUMBERS};
use switch::{refused, show};
use units::Step;
use vault::{Mode, Password};
use writes::{Write, apply};

// Starts a switch from a copy of the image. Where the image is not 256 bytes there is no switch: the answer's number is 1, and
// every array keeps what it holds. Accepted, it clears the state first, so that of a switch that stood there nothing is left.
pub fn start(
    image: &[u8],
    counters: &mut [u16; COUNTERS],
    numbers: &mut [u8; NUMBERS],
    paddles: &mut [u8; BYTES],
    all: &mut [u8; 256],
) -> Answer
    ensures { Starts (λ a. a) image.now counters.old numbers.old paddles.old all.old result counters.new numbers.new paddles.new all.new }
{
    let Some(password) = registers::take(image, all) else {
        return nobody();
    };
    *counters = [0; COUNTERS];
    *numbers = [0; NUMBERS];
    *paddles = [0; BYTES];
    wake(password, counters, numbers, paddles, all)
}

pub fn restart(
    counters: &mut [u16; COUNTERS],
    numbers: &mut [u8; NUMBERS],
    paddles: &mut [u8; BYTES],
    all: &mut [u8; 256],
    out: &[u8],
) -> Answer
    ensures { Responds restart counters.old numbers.old paddles.old all.old out.now result counters.new numbers.new paddles.new all.new out.now }
{
    if out.len() < ROOM {
        return refused(Refusal::Room, counters, numbers, all);
    }
    wake(password_of(numbers), counters, numbers, paddles, all)
}

// The 256 registers with the password among them.
pub fn image(numbers: &[u8; NUMBERS], all: &[u8; 256], out: &mut [u8; 256])
    ensures { out.new ≡ image_of all.now (password_of numbers.now) }
{
    registers::image(all, password_of(numbers), out)
}

// What start and restart share: one more in 0xFC, and everything but the registers and the password anew.
fn wake(
    password: Password,
    counters: &mut [u16; COUNTERS],
    numbers: &mut [u8; NUMBERS],
    paddles: &mut [u8; BYTES],
    all: &mut [u8; 256],
) -> Answer
    ensures { Wakes password counters.old numbers.old paddles.old all.old result counters.new numbers.new paddles.new all.new }
{
    apply(Write::Count(Counter::Restarts), b"", all);
    let core = Core::started(all);
    keep(core, password, counters, numbers);
    panel::raise(paddles);
    show(0, Sent::none(), core, all)
}

// What is answered where no switch was started.
fn nobody() -> Answer
    ensures { result ≡ no_answer 1 }
{
    Answer {
        sent: Sent::none(),
        number: Refusal::Image.number(),
        level: Step::OFF,
        output: Step::OFF,
        colour: Colour::Black,
        mode: Mode::Normal,
    }
}
