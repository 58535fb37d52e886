// What an event is answered with. Who writes it down needs nothing else of a switch.
#![tactic(auto)]

ghost use Rattle.std.specs.Prelude.{◌≡◌};
ghost use Rattle.answers.specs.Code.{number_of_refusal};

use lamp::Colour;
use outbox::Sent;
use units::Step;
use vault::Mode;

// The answer: packets sent, number, and what is shown of the switch. Stays as it is: what is promised of the numbers speaks of any
// number (promises: `Exactly`, `refusing`), and C is handed it.
#[derive(Clone, Copy)]
pub struct Answer {
    pub sent: Sent,
    pub number: u8,
    pub level: Step,
    pub output: Step,
    pub colour: Colour,
    pub mode: Mode,
}

// Why a start or an event is refused before anything else of it is looked at: the numbers 1 to 3. What a packet is refused for is
// packet's `Flaw` and judge's `Denied`. Stays as it is: `number` says what it gives, which `u8::from` would not.
#[derive(Clone, Copy, Debug, PartialEq, Eq)]
pub enum Refusal {
    Image,
    Room,
    Contact,
}

impl Refusal {
    pub fn number(self) -> u8
        ensures { result ≡ number_of_refusal self }
    {
        match self {
            Refusal::Image => 1,
            Refusal::Room => 2,
            Refusal::Contact => 3,
        }
    }
}
