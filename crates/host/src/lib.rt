// The switch for programs in C and Rust: a function for each thing that happens to it, which crate host_c exports. All that it
// holds is the caller's own, in plain numbers (crate state says which), and is lent to each of them.
#![tactic(auto)]

ghost use Rattle.std.specs.Prelude.{◌≡◌, List, ℕ};
ghost use Rattle.registers.specs.Registers.{image_of};
ghost use Rattle.state.specs.State.{password_of};
ghost use Rattle.switch.specs.Switch.{press, release, tick, receive, restart};
ghost use Rattle.host.specs.Host.{in_figures, Speaks, Begins};

use answers::Answer;
use model::PADDLES;
use panel::BYTES;
use state::{COUNTERS, NUMBERS};

// An answer in figures: `count` packets were sent, of so many bytes each.
#[repr(C)]
#[derive(Clone, Copy)]
pub struct Figures {
    pub lengths: [u8; PADDLES],
    pub count: u8,
    pub number: u8,
    pub level: u8,
    pub output: u8,
    pub colour: u8,
    pub mode: u8,
}

impl From<Answer> for Figures {
    ghost from_gives = { λ answer figures. figures ≡ in_figures answer };

    #[tactic(auto, unfolding(crate::specs::Host::in_figures))]
    fn from(answer: Answer) -> Figures {
        let sent = answer.sent;
        let lengths = sent.lengths;
        Figures {
            lengths,
            count: sent.count,
            number: answer.number,
            level: answer.level.0,
            output: answer.output.0,
            colour: u8::from(answer.colour),
            mode: u8::from(answer.mode),
        }
    }
}

// Refused, it leaves every array as it was. Accepted, it clears the state first, so that of a switch that stood there nothing is
// left.
pub fn melszondru_parts_start(
    image: &[u8],
    counters: &mut [u16; COUNTERS],
    numbers: &mut [u8; NUMBERS],
    paddles: &mut [u8; BYTES],
    all: &mut [u8; 256],
) -> Figures
    ensures { Begins image.now counters.old numbers.old paddles.old all.old result counters.new numbers.new paddles.new all.new }
{
    Figures::from(wakes::start(image, counters, numbers, paddles, all))
}

pub fn melszondru_parts_press(
    counters: &[u16; COUNTERS],
    numbers: &[u8; NUMBERS],
    paddles: &mut [u8; BYTES],
    all: &[u8; 256],
    contact: u8,
    out: &[u8],
) -> Figures
    ensures { Speaks (press contact) counters.now numbers.now paddles.old all.now out.now result counters.now numbers.now paddles.new all.now out.now }
{
    Figures::from(edges::press(counters, numbers, paddles, all, contact, out))
}

pub fn melszondru_parts_release(
    counters: &mut [u16; COUNTERS],
    numbers: &mut [u8; NUMBERS],
    paddles: &mut [u8; BYTES],
    all: &[u8; 256],
    contact: u8,
    out: &mut [u8],
) -> Figures
    ensures { Speaks (release contact) counters.old numbers.old paddles.old all.now out.old result counters.new numbers.new paddles.new all.now out.new }
{
    Figures::from(edges::release(counters, numbers, paddles, all, contact, out))
}

pub fn melszondru_parts_tick(
    counters: &mut [u16; COUNTERS],
    numbers: &mut [u8; NUMBERS],
    paddles: &mut [u8; BYTES],
    all: &mut [u8; 256],
    out: &mut [u8],
) -> Figures
    ensures { Speaks tick counters.old numbers.old paddles.old all.old out.old result counters.new numbers.new paddles.new all.new out.new }
{
    Figures::from(ticks::tick(counters, numbers, paddles, all, out))
}

// A packet has no business with the paddles: whatever bytes they have, they stay.
pub fn melszondru_parts_receive(
    counters: &mut [u16; COUNTERS],
    numbers: &mut [u8; NUMBERS],
    all: &mut [u8; 256],
    packet: &[u8],
    out: &mut [u8],
) -> Figures
    ensures { (paddles : List ℕ) → Speaks (receive packet.now) counters.old numbers.old paddles all.old out.old result counters.new numbers.new paddles all.new out.new }
{
    Figures::from(hears::receive(counters, numbers, all, packet, out))
}

pub fn melszondru_parts_restart(
    counters: &mut [u16; COUNTERS],
    numbers: &mut [u8; NUMBERS],
    paddles: &mut [u8; BYTES],
    all: &mut [u8; 256],
    out: &[u8],
) -> Figures
    ensures { Speaks restart counters.old numbers.old paddles.old all.old out.now result counters.new numbers.new paddles.new all.new out.now }
{
    Figures::from(wakes::restart(counters, numbers, paddles, all, out))
}

// The 256 bytes for the owner to save, with the password among them.
pub fn melszondru_parts_image(numbers: &[u8; NUMBERS], all: &[u8; 256], out: &mut [u8; 256])
    ensures { out.new ≡ image_of all.now (password_of numbers.now) }
{
    wakes::image(numbers, all, out)
}
