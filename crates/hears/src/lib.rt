// A received packet: read, judged, and what it asks for done and answered. The paddles have no part in it.
#![tactic(auto)]

ghost use Rattle.std.specs.Prelude.{◌≡◌, ℕ, List, drop};
ghost use Rattle.switch.specs.Switch.{receive};
ghost use Rattle.switch.specs.Respond.{Responds};

use answers::{Answer, Refusal};
use lamp::Colour;
use model::ROOM;
use obey::{hue_of, obey, signal};
use outbox::Sent;
use state::parts::{mode_in, password_of};
use state::{COUNTERS, NUMBERS};
use switch::{refused, shown};
use verdict::verdict_of;

pub fn receive(
    counters: &mut [u16; COUNTERS],
    numbers: &mut [u8; NUMBERS],
    all: &mut [u8; 256],
    packet: &[u8],
    out: &mut [u8],
) -> Answer
    ensures { (paddles : List ℕ) → Responds (receive packet.now) counters.old numbers.old paddles all.old out.old result counters.new numbers.new paddles all.new out.new }
{
    if out.len() < ROOM {
        return refused(Refusal::Room, counters, numbers, all);
    }
    let frame = packet::read(packet);
    let Ok(header) = frame else {
        signal(Colour::Black, counters, numbers);
        return shown(packet::number(frame), Sent::none(), counters, numbers, all);
    };
    let message = packet::message(frame, packet);
    let judged = judge::judge(all, mode_in(numbers), header, message);
    let verdict = verdict_of(judged, password_of(numbers));
    if let Err(denied) = verdict {
        return shown(denied.number(), Sent::none(), counters, numbers, all);
    }
    let length = obey(
        verdict,
        header.source,
        values(message),
        counters,
        numbers,
        all,
        out,
    );
    signal(hue_of(length), counters, numbers);
    shown(0, Sent::one(length), counters, numbers, all)
}

// What a Set Registers brings, behind the command and its first argument.
fn values(message: &[u8]) -> &[u8]
    ensures { result.now ≡ drop 2 message.now }
{
    message.get(2..).unwrap_or(&[])
}
