// What an edge or a tick has to send: its notes in the order they arose, laid into the places of the answer buffer one after the
// other, and counted.
#![tactic(auto)]

ghost use Rattle.std.specs.Prelude.{◌≡◌, [], length};
ghost use Rattle.outbox.specs.Outbox.{tally};
ghost use Rattle.post.specs.Code.{sent_of, front};
ghost use Rattle.outbox.specs.Code.{lone, no_notes, boxed, packets_in, counted, Sends};

use model::{PADDLES, PLACE};
use post::{Message, Note};

// The bytes of a packet around its message.
const AROUND: u8 = 6;

// The packets that an event sent: the length of each in its order, 0 where there is none, and how many.
// Stays as it is: the figures of the C interface are these lengths and this count.
#[derive(Clone, Copy)]
pub struct Sent {
    pub lengths: [u8; PADDLES],
    pub count: u8,
}

// The notes to send in the order they arose, at most one for each paddle. The places behind them are free.
// Stays as it is: an arrayvec was tried in part, and is no plainer. It wants a blank Note to fill itself with, and is no Copy.
#[derive(Clone, Copy)]
pub struct Outbox {
    pub notes: [Option<Note>; PADDLES],
}

impl Sent {
    #[tactic(auto, unfolding(crate::specs::Outbox::tally, crate::specs::Outbox::lengths_in))]
    pub fn none() -> Sent
        ensures { result ≡ tally [] }
    {
        Sent {
            lengths: [0; PADDLES],
            count: 0,
        }
    }

    // One packet of so many bytes; one of no bytes is none.
    #[tactic(auto, unfolding(crate::specs::Code::lone, crate::specs::Outbox::lengths_in))]
    pub fn one(length: u8) -> Sent
        ensures { result ≡ lone length }
    {
        let mut lengths = [0u8; PADDLES];
        lengths[0] = length;
        Sent {
            lengths,
            count: counted(length),
        }
    }
}

impl Outbox {
    pub fn none() -> Outbox
        ensures { result ≡ no_notes }
    {
        Outbox {
            notes: [None; PADDLES],
        }
    }

    // One note more, if there is one, behind those that are there. A box whose last place is taken stays as it is.
    // Stays as it is: the library's `position` was tried for the first free place, and took some 40 instructions more to a note.
    #[tactic(auto, using(crate::proofs::Laying::taken_here, crate::proofs::Laying::taken_before, crate::proofs::Laying::put_behind, crate::proofs::Laying::put_full), unfolding(crate::specs::Code::boxed, crate::specs::Code::taken_to))]
    pub fn with(mut self, note: Option<Note>) -> Outbox
        ensures { result ≡ boxed self note }
    {
        let mut end = 0;
        for i in 0..PADDLES {
            if self.notes[i].is_some() {
                end = i + 1;
            }
        }
        if end < PADDLES {
            self.notes[end] = note;
        }
        self
    }

    // Lays the packets into the places in order. One that does not fit is counted, and leaves its place alone.
    pub fn lay(self, out: &mut [u8]) -> Sent
        ensures { Sends (packets_in self) out.old result out.new }
    {
        let mut lengths = [0; PADDLES];
        let mut count = 0u8;
        for note in self.notes {
            let at = count as usize;
            let length = size(note);
            let start = (at * PLACE).min(out.len());
            post::lay(note, &mut out[start..]);
            lengths[at] = length;
            count += counted(length);
        }
        Sent { lengths, count }
    }
}

// The length of a note's packet, 0 where there is none.
#[tactic(auto, using(packet::proofs::Laws::packed_length), unfolding(post::specs::Code::sent_of, post::specs::Code::front, post::specs::Post::bytes_of, post::specs::Post::enveloped))]
fn size(note: Option<Note>) -> u8
    ensures { result ≡ length (front (sent_of note)) }
{
    let Some(note) = note else {
        return 0;
    };
    match note.message {
        Message::One(_) => AROUND + 1,
        Message::Two(_, _) => AROUND + 2,
        Message::Three(_, _, _) => AROUND + 3,
    }
}

// How many packets of this length count: none of length 0.
#[tactic(auto, unfolding(crate::specs::Code::counted))]
fn counted(length: u8) -> u8
    ensures { result ≡ counted length }
{
    u8::from(length != 0)
}
