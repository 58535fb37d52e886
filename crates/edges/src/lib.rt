// Press and release edges of the contacts.
#![tactic(auto)]

ghost use Rattle.std.specs.Prelude.{◌≡◌, [], Some};
ghost use Rattle.vault.specs.Job.{nothing};
ghost use Rattle.paddle.specs.declared.Gesture.TheVariants.{Release};
ghost use Rattle.state.specs.State.{core_of};
ghost use Rattle.turns.specs.Turns.{moment, turned};
ghost use Rattle.switch.specs.Switch.{press, release};
ghost use Rattle.switch.specs.Respond.{Responds};
ghost use Rattle.edges.specs.Code.{let_go, LetsGo};

use acts::halted;
use answers::{Answer, Refusal};
use dimmer::Dimmer;
use lamp::Colour;
use model::{CONTACTS, ROOM, paddle_of};
use obey::signal;
use outbox::{Outbox, Sent};
use paddle::Gesture;
use panel::BYTES;
use state::parts::{dimmer_of, keep_dimmer, mode_in};
use state::{COUNTERS, NUMBERS};
use switch::{refused, shown};
use units::Percent;
use vault::Mode;

// A press moves its paddle alone.
pub fn press(
    counters: &[u16; COUNTERS],
    numbers: &[u8; NUMBERS],
    paddles: &mut [u8; BYTES],
    all: &[u8; 256],
    contact: u8,
    out: &[u8],
) -> Answer
    ensures { Responds (press contact) counters.now numbers.now paddles.old all.now out.now result counters.now numbers.now paddles.new all.now out.now }
{
    if out.len() < ROOM {
        return refused(Refusal::Room, counters, numbers, all);
    }
    if CONTACTS <= contact {
        return refused(Refusal::Contact, counters, numbers, all);
    }
    panel::press(contact, paddles);
    shown(0, Sent::none(), counters, numbers, all)
}

// A release moves its paddle; where it ends a Hold, that is acted on and sent. The registers stay.
pub fn release(
    counters: &mut [u16; COUNTERS],
    numbers: &mut [u8; NUMBERS],
    paddles: &mut [u8; BYTES],
    all: &[u8; 256],
    contact: u8,
    out: &mut [u8],
) -> Answer
    ensures { Responds (release contact) counters.old numbers.old paddles.old all.now out.old result counters.new numbers.new paddles.new all.now out.new }
{
    if out.len() < ROOM {
        return refused(Refusal::Room, counters, numbers, all);
    }
    if CONTACTS <= contact {
        return refused(Refusal::Contact, counters, numbers, all);
    }
    if panel::release(contact, paddles).is_none() {
        return shown(0, Sent::none(), counters, numbers, all);
    }
    let sent = let_go(paddle_of(contact) as u8, counters, numbers, all, out);
    shown(0, sent, counters, numbers, all)
}

// The end of a Hold: what runs is stopped by a paddle that drives the load, and the packet sent.
fn let_go(
    paddle: u8,
    counters: &mut [u16; COUNTERS],
    numbers: &mut [u8; NUMBERS],
    all: &[u8; 256],
    out: &mut [u8],
) -> Sent
    ensures { LetsGo (turned paddle (Some Release) (moment all.now (core_of counters.old numbers.old) [] nothing)) counters.old numbers.old out.old result counters.new numbers.new out.new }
{
    let mode = mode_in(numbers);
    let dimmer = ended(paddle, mode, dimmer_of(counters, numbers));
    keep_dimmer(dimmer, counters, numbers);
    let percent = Percent::from(dimmer.level);
    let note = herald::announce(all, mode, paddle, Some(Gesture::Release), percent);
    let sent = Outbox::none().with(note).lay(out);
    if sent.count == 0 {
        return sent;
    }
    signal(Colour::Red, counters, numbers);
    sent
}

#[tactic(auto, unfolding(crate::specs::Code::let_go))]
fn ended(paddle: u8, mode: Mode, dimmer: Dimmer) -> Dimmer
    ensures { result ≡ let_go paddle mode dimmer }
{
    match mode {
        Mode::Setup => dimmer,
        Mode::Normal | Mode::Factory => halted(dimmer, paddle),
    }
}
