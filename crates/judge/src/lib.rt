// What a packet asks for: the checks 9 to 13 in their order, and the command with its arguments taken apart. The
// switch's own password does not come here.
#![tactic(auto)]

ghost use Rattle.std.specs.Prelude.{◌≡◌};
ghost use Rattle.judge.specs.Judge.{number_of_denied, driving, going, ordered, commanded, judged};

use levels::Options;
use packet::Header;
use reach::{Target, heard, permitted, target_of};
use vault::{Mode, Password};
use verbs::{Verb, argument, optional};

// What a packet is refused for: its network, its destination, its command, its arguments, what else the command asks, or a wrong password,
// which is not found here.
// Stays as it is: `number` says what it gives, which `u8::from` would not.
#[derive(Clone, Copy, Debug, PartialEq, Eq)]
pub enum Denied {
    Network,
    Destination,
    Command,
    Arguments,
    Circumstances,
    Password,
}

impl Denied {
    pub fn number(self) -> u8
        ensures { result ≡ number_of_denied self }
    {
        match self {
            Denied::Network => 9,
            Denied::Destination => 10,
            Denied::Command => 11,
            Denied::Arguments => 12,
            Denied::Circumstances => 13,
            Denied::Password => 14,
        }
    }
}

// What is to be done: a guess to be compared with the password (Start Setup), a range of registers to be read (Get Registers), or work that
// the password has no part in.
#[derive(Clone, Copy)]
pub enum Order {
    Guess(Password),
    Read { first: u8, count: u8 },
    Work(Work),
}

// Report answers the level, Close is Stop Setup, Set is Set Registers (its values stand in the message from byte 2 on), Store is Store
// Preset of a component, Drive is for the dimmer.
#[derive(Clone, Copy)]
pub enum Work {
    Report,
    Close,
    Set { first: u8 },
    Store(u8),
    Drive(Drive),
}

// A missing rate is 255, a missing value 0.
#[derive(Clone, Copy)]
pub enum Drive {
    Activate(u8),
    Deactivate(u8),
    Goto { level: u8, rate: u8 },
    Stop,
    Blink(u8),
}

// What stands for a missing rate. Stays as it is: document 01 gives 255 this meaning in a packet and in a register too.
const DEFAULT: u8 = 255;

#[tactic(auto, unfolding(crate::specs::Judge::judged))]
pub fn judge(all: &[u8; 256], mode: Mode, header: Header, message: &[u8]) -> Result<Order, Denied>
    ensures { result ≡ judged all.now mode header message.now }
{
    if !heard(all, header.network) {
        return Err(Denied::Network);
    }
    let target = target_of(all, header);
    if !target.reached() {
        return Err(Denied::Destination);
    }
    let verb = Verb::from(argument(message, 0));
    commanded(all, mode, header.source, target, verb, message)
}

// The checks from 11 on.
#[tactic(auto, unfolding(crate::specs::Judge::commanded))]
fn commanded(
    all: &[u8; 256],
    mode: Mode,
    source: u8,
    target: Target,
    verb: Verb,
    message: &[u8],
) -> Result<Order, Denied>
    ensures { result ≡ commanded all.now mode source target verb message.now }
{
    if !verb.listed() {
        return Err(Denied::Command);
    }
    if !verb.suits(message) {
        return Err(Denied::Arguments);
    }
    let options = Options::from(places::dimming(all));
    if !permitted(verb, target, mode, source, options.capable) {
        return Err(Denied::Circumstances);
    }
    ordered(verb, target, message)
}

#[tactic(auto, unfolding(crate::specs::Judge::ordered))]
fn ordered(verb: Verb, target: Target, message: &[u8]) -> Result<Order, Denied>
    ensures { result ≡ ordered verb target message.now }
{
    let order = match verb {
        Verb::Open => Order::Guess(Password(argument(message, 1), argument(message, 2))),
        Verb::Close => Order::Work(Work::Close),
        Verb::Get => Order::Read {
            first: argument(message, 1),
            count: argument(message, 2),
        },
        Verb::Set => Order::Work(Work::Set {
            first: argument(message, 1),
        }),
        Verb::Activate => driving(Drive::Activate(target.component())),
        Verb::Deactivate => driving(Drive::Deactivate(target.component())),
        Verb::Goto | Verb::FadeStart => driving(going(message)),
        Verb::FadeStop => driving(Drive::Stop),
        Verb::Blink => driving(Drive::Blink(optional(message, 1, 0))),
        Verb::Report => Order::Work(Work::Report),
        Verb::Store => Order::Work(Work::Store(target.component())),
        Verb::Unlisted => return Err(Denied::Command),
    };
    Ok(order)
}

fn driving(drive: Drive) -> Order
    ensures { result ≡ driving drive }
{
    Order::Work(Work::Drive(drive))
}

// A level and perhaps a rate.
fn going(message: &[u8]) -> Drive
    ensures { result ≡ going message.now }
{
    Drive::Goto {
        level: argument(message, 1),
        rate: optional(message, 2, DEFAULT),
    }
}
