// What a granted order does in the lent state, each kind of order in its own parts. The lamp's signal comes after it.
#![tactic(auto)]

ghost use Rattle.std.specs.Prelude.{◌≡◌};
ghost use Rattle.lamp.specs.Lamp.{signal_set};
ghost use Rattle.acts.specs.Core.{entering};
ghost use Rattle.orders.specs.Orders.{driven, performed};
ghost use Rattle.state.specs.State.{core_of, dimmer_of, lamp_of, mode_in, password_of};
ghost use Rattle.state.specs.Code.{DimmerKept, LampKept};
ghost use Rattle.obey.specs.Obey.{reply_to};
ghost use Rattle.verdict.specs.Code.{seen_of};
ghost use Rattle.obey.specs.Code.{effect_of, effect_on, reply_of, reply_on, seen_on, hue_by, Ready, Obeys, Sets};

use judge::{Drive, Order, Work};
use lamp::Colour;
use orders::{drive, stored};
use places::Counter;
use post::Reply;
use state::parts::{
    dimmer_of, keep_dimmer, keep_lamp, keep_mode, keep_password, lamp_of, level_in, mode_in,
    password_of,
};
use state::{COUNTERS, NUMBERS};
use units::Percent;
use vault::Mode;
use verdict::seen_by;
use writes::{Write, apply};

// What a granted order does, and the length of the reply, 0 for none, as C is handed it. `values`: what a Set Registers brings. One that
// is refused does nothing, whatever it is refused for and however that is said.
#[tactic(auto, unfolding(crate::specs::Code::effect_on, crate::specs::Code::reply_on, crate::specs::Code::seen_on))]
pub fn obey<E: Copy>(
    order: Result<Order, E>,
    source: u8,
    values: &[u8],
    counters: &mut [u16; COUNTERS],
    numbers: &mut [u8; NUMBERS],
    all: &mut [u8; 256],
    out: &mut [u8],
) -> u8
    ensures { Obeys (effect_on all.old order (core_of counters.old numbers.old)) values.now source (reply_on order) (seen_on order (mode_in numbers.old) (password_of numbers.old)) counters.old numbers.old all.old out.old result counters.new numbers.new all.new out.new }
{
    match order {
        Ok(order) => follow(order, source, values, counters, numbers, all, out),
        Err(_) => 0,
    }
}

fn follow(
    order: Order,
    source: u8,
    values: &[u8],
    counters: &mut [u16; COUNTERS],
    numbers: &mut [u8; NUMBERS],
    all: &mut [u8; 256],
    out: &mut [u8],
) -> u8
    ensures { Obeys (effect_of all.old order (core_of counters.old numbers.old)) values.now source (reply_of order) (seen_of order (mode_in numbers.old) (password_of numbers.old)) counters.old numbers.old all.old out.old result counters.new numbers.new all.new out.new }
{
    match order {
        Order::Guess(_) => {
            apply(Write::Count(Counter::Setups), b"", all);
            enter(Mode::Setup, counters, numbers);
            0
        }
        Order::Read { first, count } => {
            let percent = Percent::from(level_in(numbers));
            let seen = seen_by(mode_in(numbers), password_of(numbers));
            let reply = Reply::Registers { first, count };
            post::send(all, seen, source, reply, percent, out)
        }
        Order::Work(work) => perform(work, source, values, counters, numbers, all, out),
    }
}

fn perform(
    work: Work,
    source: u8,
    values: &[u8],
    counters: &mut [u16; COUNTERS],
    numbers: &mut [u8; NUMBERS],
    all: &mut [u8; 256],
    out: &mut [u8],
) -> u8
    ensures { Obeys (performed all.old work (core_of counters.old numbers.old)) values.now source (reply_to work) None counters.old numbers.old all.old out.old result counters.new numbers.new all.new out.new }
{
    match work {
        Work::Report => {
            let percent = Percent::from(level_in(numbers));
            post::send(all, None, source, Reply::Status, percent, out)
        }
        Work::Close => {
            enter(Mode::Normal, counters, numbers);
            0
        }
        Work::Set { first } => {
            set(first, values, numbers, all);
            0
        }
        Work::Store(component) => {
            apply(stored(level_in(numbers), component), b"", all);
            0
        }
        Work::Drive(asked) => {
            drive_to(asked, counters, numbers, all);
            0
        }
    }
}

// A mode is entered: with it its blinks and its flash begin.
fn enter(mode: Mode, counters: &mut [u16; COUNTERS], numbers: &mut [u8; NUMBERS])
    ensures { Ready (entering mode (core_of counters.old numbers.old)) (password_of numbers.old) counters.old numbers.old counters.new numbers.new }
{
    keep_mode(mode, numbers);
    let lamp = lamp_of(counters, numbers).entered();
    keep_lamp(lamp, counters, numbers);
}

// Registers are set, the password's two bytes among them.
#[tactic(auto, using(crate::proofs::Laws::sets_both))]
fn set(first: u8, values: &[u8], numbers: &mut [u8; NUMBERS], all: &mut [u8; 256])
    ensures { Sets first values.now numbers.old all.old numbers.new all.new }
{
    let write = Write::Values { first };
    let password = writes::password(write, values, password_of(numbers));
    apply(write, values, all);
    keep_password(password, numbers);
}

fn drive_to(
    asked: Drive,
    counters: &mut [u16; COUNTERS],
    numbers: &mut [u8; NUMBERS],
    all: &[u8; 256],
)
    ensures { DimmerKept (driven all.now asked (dimmer_of counters.old numbers.old)) counters.old numbers.old counters.new numbers.new }
{
    let dimmer = drive(dimmer_of(counters, numbers), all, asked);
    keep_dimmer(dimmer, counters, numbers);
}

// The lamp's signal of a packet begins.
pub fn signal(hue: Colour, counters: &mut [u16; COUNTERS], numbers: &mut [u8; NUMBERS])
    ensures { LampKept (signal_set hue (lamp_of counters.old numbers.old)) counters.old numbers.old counters.new numbers.new }
{
    let lamp = lamp_of(counters, numbers).blinked(hue);
    keep_lamp(lamp, counters, numbers);
}

// Its colour for a packet that is answered 0: green, and red where a reply is sent.
#[tactic(auto, unfolding(crate::specs::Code::hue_by))]
pub fn hue_of(length: u8) -> Colour
    ensures { result ≡ hue_by length }
{
    if length == 0 {
        return Colour::Green;
    }
    Colour::Red
}
