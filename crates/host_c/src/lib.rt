// What programs in C and Rust link: of each function of crate host an export of the same name, with the same parameters and the
// same promises. A slice crosses as a pointer and a length, an array as a pointer. Stays as it is: twins of host's, since C is handed
// these names.
#![tactic(auto)]

ghost use Rattle.std.specs.Prelude.{◌≡◌, List, ℕ};
ghost use Rattle.registers.specs.Registers.{image_of};
ghost use Rattle.state.specs.State.{password_of};
ghost use Rattle.switch.specs.Switch.{press, release, tick, receive, restart};
ghost use Rattle.host.specs.Host.{Speaks, Begins};

use host::Figures;
use panel::BYTES;
use state::{COUNTERS, NUMBERS};

// Refused, it leaves every array as it was. Accepted, it clears the state first, so that of a switch that stood there nothing is
// left.
#[unsafe(no_mangle)]
pub extern "C" fn melszondru_parts_start(
    image: &[u8],
    counters: &mut [u16; COUNTERS],
    numbers: &mut [u8; NUMBERS],
    paddles: &mut [u8; BYTES],
    all: &mut [u8; 256],
) -> Figures
    ensures { Begins image.now counters.old numbers.old paddles.old all.old result counters.new numbers.new paddles.new all.new }
{
    host::melszondru_parts_start(image, counters, numbers, paddles, all)
}

#[unsafe(no_mangle)]
pub extern "C" fn melszondru_parts_press(
    counters: &[u16; COUNTERS],
    numbers: &[u8; NUMBERS],
    paddles: &mut [u8; BYTES],
    all: &[u8; 256],
    contact: u8,
    out: &[u8],
) -> Figures
    ensures { Speaks (press contact) counters.now numbers.now paddles.old all.now out.now result counters.now numbers.now paddles.new all.now out.now }
{
    host::melszondru_parts_press(counters, numbers, paddles, all, contact, out)
}

#[unsafe(no_mangle)]
pub extern "C" fn melszondru_parts_release(
    counters: &mut [u16; COUNTERS],
    numbers: &mut [u8; NUMBERS],
    paddles: &mut [u8; BYTES],
    all: &[u8; 256],
    contact: u8,
    out: &mut [u8],
) -> Figures
    ensures { Speaks (release contact) counters.old numbers.old paddles.old all.now out.old result counters.new numbers.new paddles.new all.now out.new }
{
    host::melszondru_parts_release(counters, numbers, paddles, all, contact, out)
}

#[unsafe(no_mangle)]
pub extern "C" fn melszondru_parts_tick(
    counters: &mut [u16; COUNTERS],
    numbers: &mut [u8; NUMBERS],
    paddles: &mut [u8; BYTES],
    all: &mut [u8; 256],
    out: &mut [u8],
) -> Figures
    ensures { Speaks tick counters.old numbers.old paddles.old all.old out.old result counters.new numbers.new paddles.new all.new out.new }
{
    host::melszondru_parts_tick(counters, numbers, paddles, all, out)
}

// A packet has no business with the paddles: whatever bytes they have, they stay.
#[unsafe(no_mangle)]
pub extern "C" fn melszondru_parts_receive(
    counters: &mut [u16; COUNTERS],
    numbers: &mut [u8; NUMBERS],
    all: &mut [u8; 256],
    packet: &[u8],
    out: &mut [u8],
) -> Figures
    ensures { (paddles : List ℕ) → Speaks (receive packet.now) counters.old numbers.old paddles all.old out.old result counters.new numbers.new paddles all.new out.new }
{
    host::melszondru_parts_receive(counters, numbers, all, packet, out)
}

#[unsafe(no_mangle)]
pub extern "C" fn melszondru_parts_restart(
    counters: &mut [u16; COUNTERS],
    numbers: &mut [u8; NUMBERS],
    paddles: &mut [u8; BYTES],
    all: &mut [u8; 256],
    out: &[u8],
) -> Figures
    ensures { Speaks restart counters.old numbers.old paddles.old all.old out.now result counters.new numbers.new paddles.new all.new out.now }
{
    host::melszondru_parts_restart(counters, numbers, paddles, all, out)
}

// The 256 bytes for the owner to save, with the password among them.
#[unsafe(no_mangle)]
pub extern "C" fn melszondru_parts_image(
    numbers: &[u8; NUMBERS],
    all: &[u8; 256],
    out: &mut [u8; 256],
)
    ensures { out.new ≡ image_of all.now (password_of numbers.now) }
{
    host::melszondru_parts_image(numbers, all, out)
}
