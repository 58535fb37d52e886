// The commands: their numbers, and what arguments each takes.
#![tactic(auto)]

ghost use Rattle.std.specs.Prelude.{◌≡◌};
ghost use Rattle.verbs.specs.Verbs.{verb_of, listed, argument, optional, arguments, registers_in_range, values, suits};

// The commands. Open and Close are Start and Stop Setup, Store is Store Preset; Unlisted is every number that is none.
// Stays as it is: `suits`, and above it `permitted` of reach, answer for Unlisted too, and may not take a narrower type.
#[derive(Clone, Copy)]
pub enum Verb {
    Open,
    Close,
    Get,
    Set,
    Activate,
    Deactivate,
    Goto,
    FadeStart,
    FadeStop,
    Blink,
    Report,
    Store,
    Unlisted,
}

// The most registers that one Get or Set may name.
const MOST: usize = 16;

impl From<u8> for Verb {
    ghost from_gives = { λ number verb. verb ≡ verb_of number };

    #[tactic(auto, unfolding(crate::specs::Verbs::verb_of))]
    fn from(number: u8) -> Verb {
        match number {
            0x03 => Verb::Open,
            0x04 => Verb::Close,
            0x10 => Verb::Get,
            0x11 => Verb::Set,
            0x20 => Verb::Activate,
            0x21 => Verb::Deactivate,
            0x22 => Verb::Goto,
            0x23 => Verb::FadeStart,
            0x24 => Verb::FadeStop,
            0x25 => Verb::Blink,
            0x30 => Verb::Report,
            0x31 => Verb::Store,
            _ => Verb::Unlisted,
        }
    }
}

// The i-th argument. The message is the command, then its arguments, so 0 is the command itself.
pub fn argument(message: &[u8], i: usize) -> u8
    ensures { result ≡ argument message.now i }
{
    optional(message, i, 0)
}

pub fn optional(message: &[u8], i: usize, missing: u8) -> u8
    ensures { result ≡ optional message.now i missing }
{
    message.get(i).copied().unwrap_or(missing)
}

// Whether the message has at least and at most so many arguments.
#[tactic(auto, unfolding(crate::specs::Verbs::arguments))]
fn arguments(message: &[u8], least: u8, most: u8) -> bool
    ensures { result ≡ arguments message.now least most }
{
    (least as usize) < message.len() && message.len() <= (most as usize) + 1
}

fn values(message: &[u8]) -> usize
    ensures { result ≡ values message.now }
{
    message.len().saturating_sub(2)
}

// 1 to 16 registers, none past 0xFF.
#[tactic(auto, unfolding(crate::specs::Verbs::registers_in_range))]
fn in_range(first: u8, count: usize) -> bool
    ensures { result ≡ registers_in_range first count }
{
    1 <= count && (count <= MOST && (first as usize) + count <= places::SIZE)
}

impl Verb {
    pub fn listed(self) -> bool
        ensures { result ≡ listed self }
    {
        !matches!(self, Verb::Unlisted)
    }

    // Whether the arguments suit the command: their count, and the range of registers.
    #[tactic(auto, unfolding(crate::specs::Verbs::suits))]
    pub fn suits(self, message: &[u8]) -> bool
        ensures { result ≡ suits self message.now }
    {
        match self {
            Verb::Open => arguments(message, 2, 2),
            Verb::Get => arguments(message, 2, 2)
                && in_range(argument(message, 1), argument(message, 2) as usize),
            Verb::Set => in_range(argument(message, 1), values(message)),
            Verb::Goto | Verb::FadeStart => arguments(message, 1, 2),
            Verb::Blink => arguments(message, 0, 1),
            Verb::Close
            | Verb::Activate
            | Verb::Deactivate
            | Verb::FadeStop
            | Verb::Report
            | Verb::Store => arguments(message, 0, 0),
            Verb::Unlisted => false,
        }
    }
}
