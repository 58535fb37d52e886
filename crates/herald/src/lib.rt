// What a paddle's gesture sends: a link packet, noted with the registers as they stand.
#![tactic(auto)]

ghost use Rattle.std.specs.Prelude.{◌≡◌};
ghost use Rattle.herald.specs.Herald.{command_number, chosen, trimmed, takes_level};
ghost use Rattle.herald.specs.Code.{note_of};

use paddle::Gesture;
use places::{Entry, Transmit};
use post::{Message, Note, STATUS};
use units::Percent;
use vault::Mode;

// Command numbers above those of the command table.
const REPORT: u8 = 14;

const NONE: u8 = 15;

// The commands that take a level.
const GOTO: u8 = 0x22;

const FADE: u8 = 0x23;

// An argument that is left off.
const ABSENT: u8 = 255;

// What a paddle's gesture sends, in the mode that it finds; the percent is the one after the act.
#[tactic(auto, unfolding(crate::specs::Code::note_of, crate::specs::Herald::gesture_message))]
pub fn announce(
    all: &[u8; 256],
    mode: Mode,
    paddle: u8,
    gesture: Option<Gesture>,
    percent: Percent,
) -> Option<Note>
    ensures { result ≡ note_of all.now mode paddle gesture percent }
{
    let transmit = places::transmit_of(all, paddle);
    if !registers::valid(transmit.link) {
        return None;
    }
    let number = number(mode, transmit, gesture)?;
    let message = chosen(all, number, percent)?;
    Some(Note {
        network: places::network(all),
        source: places::unit(all),
        destination: transmit.link,
        message,
    })
}

// The command number of a gesture in a mode, if it sends: none in Setup, and no double in Factory Default.
#[tactic(auto, unfolding(crate::specs::Herald::command_number, crate::specs::Herald::gesture_number))]
fn number(mode: Mode, transmit: Transmit, gesture: Option<Gesture>) -> Option<u8>
    ensures { result ≡ command_number mode transmit gesture }
{
    match (mode, gesture?) {
        (Mode::Setup, _) | (Mode::Factory, Gesture::Taps(2)) => None,
        (_, Gesture::Taps(1)) => Some(transmit.single),
        (_, Gesture::Taps(2)) => Some(transmit.double),
        (_, Gesture::Taps(_)) => None,
        (_, Gesture::Hold) => Some(transmit.hold),
        (_, Gesture::Release) => Some(transmit.release),
    }
}

// The message of a command number, by its low four bits.
#[tactic(auto, unfolding(crate::specs::Herald::chosen))]
fn chosen(all: &[u8; 256], number: u8, percent: Percent) -> Option<Message>
    ensures { result ≡ chosen all.now number percent }
{
    match number % 16 {
        NONE => None,
        REPORT => Some(Message::Two(STATUS, percent.0)),
        low => trimmed(places::entry_at(all, low)),
    }
}

// An entry of the command table without its absent arguments; one without a command is none.
#[tactic(auto, unfolding(crate::specs::Herald::trimmed))]
fn trimmed(entry: Entry) -> Option<Message>
    ensures { result ≡ trimmed entry }
{
    match (entry.command, entry.first, entry.second) {
        (ABSENT, _, _) => None,
        (command, ABSENT, ABSENT) if !takes_level(command) => Some(Message::One(command)),
        (command, first, ABSENT) => Some(Message::Two(command, first)),
        (command, first, second) => Some(Message::Three(command, first, second)),
    }
}

#[tactic(auto, unfolding(crate::specs::Herald::takes_level))]
fn takes_level(command: u8) -> bool
    ensures { result ≡ takes_level command }
{
    matches!(command, GOTO | FADE)
}
