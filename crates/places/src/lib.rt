// Where everything stands among the registers: each named place is read by one function.
#![tactic(auto)]

ghost use Rattle.std.specs.Prelude.{◌≡◌};
ghost use Rattle.places.specs.Places.{network_in, unit_in, digit_in, link_place, level_place, component_in, transmit_in};
ghost use Rattle.places.specs.Places.{action_in, light_in, dimming_in, entry_place, entry_in, saved_in, counter_place};

pub const SIZE: usize = 256;

pub const NETWORK: usize = 0x00;

pub const UNIT: usize = 0x01;

// The password's two bytes.
pub const FIRST: usize = 0x02;

pub const SECOND: usize = 0x03;

const VERSION: usize = 0x0B;

pub const LIGHT: usize = 0x8B;

pub const DIMMING: usize = 0x8D;

pub const SAVED: usize = 0xF9;

pub const COMPONENTS: u8 = 16;

const ENTRIES: u8 = 14;

// A receive component: what a link asks for.
#[derive(Clone, Copy)]
pub struct Component {
    pub link: u8,
    pub level: u8,
    pub rate: u8,
}

// A paddle's transmit component: its link, and a command number for each gesture.
#[derive(Clone, Copy)]
pub struct Transmit {
    pub link: u8,
    pub single: u8,
    pub double: u8,
    pub hold: u8,
    pub release: u8,
}

// A line of the action table.
#[derive(Clone, Copy)]
pub struct Action {
    pub level: u8,
    pub rate: u8,
}

// An entry of the command table.
#[derive(Clone, Copy)]
pub struct Entry {
    pub command: u8,
    pub first: u8,
    pub second: u8,
}

// Entries into Setup, and restarts.
// Stays as it is: `place` says what it gives, which `usize::from` would not.
#[derive(Clone, Copy)]
pub enum Counter {
    Setups,
    Restarts,
}

// Stays as it is: each named place is read in one line, and one function for them all would need the names again as its argument.
pub fn network(all: &[u8; 256]) -> u8
    ensures { result ≡ network_in all.now }
{
    all[NETWORK]
}

pub fn unit(all: &[u8; 256]) -> u8
    ensures { result ≡ unit_in all.now }
{
    all[UNIT]
}

pub fn digit(all: &[u8; 256]) -> u8
    ensures { result ≡ digit_in all.now }
{
    all[VERSION] % 16
}

// The i-th receive component; past the sixteenth they count on from the first.
#[tactic(auto, unfolding(crate::specs::Places::component_in))]
pub fn component_at(all: &[u8; 256], i: u8) -> Component
    ensures { result ≡ component_in all.now i }
{
    let place = link_place(i);
    Component {
        link: all[place],
        level: all[place + 1],
        rate: all[place + 2],
    }
}

pub fn link_place(i: u8) -> usize
    ensures { result ≡ link_place i }
{
    0x40 + 3 * ((i % COMPONENTS) as usize)
}

pub fn level_place(i: u8) -> usize
    ensures { result ≡ level_place i }
{
    link_place(i) + 1
}

#[tactic(auto, unfolding(crate::specs::Places::transmit_in))]
pub fn transmit_of(all: &[u8; 256], paddle: u8) -> Transmit
    ensures { result ≡ transmit_in all.now paddle }
{
    let place = model::transmit_place(paddle);
    Transmit {
        link: all[place],
        single: all[place + 1],
        double: all[place + 2],
        hold: all[place + 3],
        release: all[place + 4],
    }
}

// A paddle's first line of the action table is for a single tap, its second for a double one.
#[tactic(auto, unfolding(crate::specs::Places::action_in))]
pub fn action_of(all: &[u8; 256], paddle: u8, taps: u8) -> Action
    ensures { result ≡ action_in all.now paddle taps }
{
    let first = model::action_place(paddle);
    let place = if taps == 1 { first } else { first + 2 };
    Action {
        level: all[place],
        rate: all[place + 1],
    }
}

pub fn light(all: &[u8; 256]) -> u8
    ensures { result ≡ light_in all.now }
{
    all[LIGHT]
}

pub fn dimming(all: &[u8; 256]) -> u8
    ensures { result ≡ dimming_in all.now }
{
    all[DIMMING]
}

// The i-th entry of the command table; past the fourteenth they count on from the first.
#[tactic(auto, unfolding(crate::specs::Places::entry_in))]
pub fn entry_at(all: &[u8; 256], i: u8) -> Entry
    ensures { result ≡ entry_in all.now i }
{
    let place = entry_place(i);
    Entry {
        command: all[place],
        first: all[place + 1],
        second: all[place + 2],
    }
}

fn entry_place(i: u8) -> usize
    ensures { result ≡ entry_place i }
{
    0x90 + 3 * ((i % ENTRIES) as usize)
}

pub fn saved(all: &[u8; 256]) -> u8
    ensures { result ≡ saved_in all.now }
{
    all[SAVED]
}

impl Counter {
    #[tactic(auto, unfolding(crate::specs::Places::counter_place))]
    pub fn place(self) -> usize
        ensures { result ≡ counter_place self }
    {
        match self {
            Counter::Setups => 0xFA,
            Counter::Restarts => 0xFC,
        }
    }
}
