// What a switch of this model is made of: its paddles and contacts, where each paddle's registers begin, and the places of the
// answer buffer. Nothing else says any of this again.
// Stays as it is: paddles and contacts go by number, as C names the contacts, and tables count on past the last (docs/DECISIONS.md 52).
#![tactic(auto)]

ghost use Rattle.std.specs.Prelude.{◌≡◌};
ghost use Rattle.model.specs.Model.{paddle_of, kind_of, is_top, drives, transmit_place, action_place};

use paddle::Contact;

// How many paddles there are: 0 the top, 1 the bottom.
pub const PADDLES: usize = 2;

// Contacts are numbered from 0: local top, local bottom, slave top, slave bottom.
pub const CONTACTS: u8 = 4;

// The bytes of one place of the answer buffer, and of the longest packet.
pub const PLACE: usize = 24;

// The least answer buffer: a place for each paddle.
pub const ROOM: usize = PADDLES * PLACE;

pub fn paddle_of(contact: u8) -> usize
    ensures { result ≡ paddle_of contact }
{
    (contact % 2) as usize
}

pub fn kind_of(contact: u8) -> Contact
    ensures { result ≡ kind_of contact }
{
    if contact < 2 {
        return Contact::Local;
    }
    Contact::Slave
}

// Whether the paddle is a top one.
pub fn top(paddle: u8) -> bool
    ensures { result ≡ is_top paddle }
{
    paddle % 2 == 0
}

// Whether the paddle drives the load; one that does not would change the mode and send, and no more.
pub fn drives(paddle: u8) -> bool
    ensures { result ≡ drives paddle }
{
    paddle < 2
}

// Where the paddle's transmit component begins. Past the last paddle they count on from the first.
pub fn transmit_place(paddle: u8) -> usize
    ensures { result ≡ transmit_place paddle }
{
    0x70 + 5 * ((paddle as usize) % PADDLES)
}

// Where its lines of the action table begin.
pub fn action_place(paddle: u8) -> usize
    ensures { result ≡ action_place paddle }
{
    0x7A + 4 * ((paddle as usize) % PADDLES)
}
