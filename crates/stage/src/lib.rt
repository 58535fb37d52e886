// The switch on the desk: an event happens to it, and what it answers is written.
#![tactic(auto)]

ghost use Rattle.std.specs.Prelude.{◌≡◌, List, ℕ, take};
ghost use Rattle.switch.specs.Switch.{tick};
ghost use Rattle.page.specs.Page.{page_of};
ghost use Rattle.ledger.specs.Writing.{row};
ghost use Rattle.answers.specs.declared.Answer.{Answer};
ghost use Rattle.stage.specs.Stage.{done, empty_desk, empty_table, scene_of, happened, told, Plays, PlaysOn, letter_of, deed_of};

use answers::Answer;
use ledger::FILL;
use model::ROOM;
use page::{Page, front};
use panel::BYTES;
use state::{COUNTERS, NUMBERS};
use std::marker::Model;

// Whether there is a switch, and how many bytes of the buffer are lent to it. All that it holds is lent beside the desk.
#[derive(Clone, Copy)]
pub struct Desk {
    // Stays as it is: no Option, since `begun` (desk) leaves every array as it was where a start is refused.
    pub there: bool,
    pub room: usize,
}

// The desk after a line, and the place behind what is written of it.
#[derive(Clone, Copy)]
pub struct Turn {
    pub desk: Desk,
    pub at: usize,
}

// What happens to a switch.
#[derive(Clone, Copy)]
pub enum Event<'a> {
    Press(u8),
    Release(u8),
    Tick,
    Packet(&'a [u8]),
    Restart,
}

impl Event<'_> {
    fn letter(self) -> u8
        ensures { result ≡ letter_of self.entry }
    {
        match self {
            Event::Press(_) => b'p',
            Event::Release(_) => b'r',
            Event::Tick => b't',
            Event::Packet(_) => b'k',
            Event::Restart => b'x',
        }
    }
}

impl Desk {
    // Nobody there.
    pub fn empty() -> Desk
        ensures { result ≡ empty_desk }
    {
        Desk {
            there: false,
            room: ROOM,
        }
    }

    // From now on so many bytes of the buffer are lent, or all where there are fewer.
    pub fn with_room(self, room: usize) -> Desk
        ensures { result ≡ record { there = self.there; room = room } }
    {
        Desk { room, ..self }
    }
}

// One tick, whose row is written on a page of its own.
pub fn tick(
    desk: Desk,
    counters: &mut [u16; COUNTERS],
    numbers: &mut [u8; NUMBERS],
    paddles: &mut [u8; BYTES],
    all: &mut [u8; 256],
    buffer: &mut [u8],
    page: &mut [u8],
) -> Turn
    ensures { Plays (happened row tick (scene_of desk counters.old numbers.old paddles.old all.old buffer.old)) (page_of page.old 0) result.desk counters.new numbers.new paddles.new all.new buffer.new (page_of page.new result.at) }
{
    let answer = happen(Event::Tick, desk, counters, numbers, paddles, all, buffer);
    let at = ledger::row(page, 0, answer, front(buffer, desk.room));
    Turn { desk, at }
}

// An event that is answered by a line.
#[tactic(auto, unfolding(crate::specs::Stage::told))]
pub fn tell(
    event: Event,
    desk: Desk,
    counters: &mut [u16; COUNTERS],
    numbers: &mut [u8; NUMBERS],
    paddles: &mut [u8; BYTES],
    all: &mut [u8; 256],
    buffer: &mut [u8],
    page: &mut [u8],
    at: usize,
) -> Turn
    ensures { Plays (told (letter_of event.entry) (deed_of event.entry) (scene_of desk counters.old numbers.old paddles.old all.old buffer.old)) (page_of page.old at) result.desk counters.new numbers.new paddles.new all.new buffer.new (page_of page.new result.at) }
{
    let letter = event.letter();
    if !desk.there {
        let at = page::none(page, at, letter);
        return Turn { desk, at };
    }
    let answer = happen(event, desk, counters, numbers, paddles, all, buffer);
    let at = ledger::answered(page, at, letter, answer, front(buffer, desk.room));
    Turn { desk, at }
}

// The event happens with the lent bytes filled. It stands where it is called, so that a tick does not ask what event it is.
#[inline(always)]
fn happen(
    event: Event,
    desk: Desk,
    counters: &mut [u16; COUNTERS],
    numbers: &mut [u8; NUMBERS],
    paddles: &mut [u8; BYTES],
    all: &mut [u8; 256],
    buffer: &mut [u8],
) -> Answer
    ensures { (say : Answer → List ℕ → List ℕ) → done (scene_of desk counters.new numbers.new paddles.new all.new buffer.new) (say result (take desk.room buffer.new)) ≡ happened say (deed_of event.entry) (scene_of desk counters.old numbers.old paddles.old all.old buffer.old) }
{
    let lent = desk.room.min(buffer.len());
    let out = &mut buffer[..lent];
    out.fill(FILL);
    match event {
        Event::Press(contact) => edges::press(counters, numbers, paddles, all, contact, out),
        Event::Release(contact) => edges::release(counters, numbers, paddles, all, contact, out),
        Event::Tick => ticks::tick(counters, numbers, paddles, all, out),
        Event::Packet(bytes) => hears::receive(counters, numbers, all, bytes, out),
        Event::Restart => wakes::restart(counters, numbers, paddles, all, out),
    }
}

// All of it in one: the desk, what the switch on it is kept in, and the buffer.
#[derive(Clone, Copy)]
pub struct Table<const N: usize> {
    pub desk: Desk,
    pub counters: [u16; COUNTERS],
    pub numbers: [u8; NUMBERS],
    pub paddles: [u8; BYTES],
    pub all: [u8; 256],
    pub buffer: [u8; N],
}

// Clauses see a scene.
impl<const N: usize> Model for Table<N> {
    ghost use Rattle.stage.specs.Stage.{Scene, scene_of};

    ghost Value = { Scene };

    ghost view = { λ t. scene_of t.desk t.counters t.numbers t.paddles t.all t.buffer };

    ghost inverse = { λ s. record { desk = record { there = s.there; room = s.room }; counters = s.arrays.counters; numbers = s.arrays.numbers; paddles = s.arrays.paddles; all = s.arrays.registers; buffer = s.buffer } };
}

impl<const N: usize> Table<N> {
    // Nobody there, and nothing but zeros.
    pub fn empty() -> Self
        ensures { result ≡ empty_table N }
    {
        Table {
            desk: Desk::empty(),
            counters: [0; COUNTERS],
            numbers: [0; NUMBERS],
            paddles: [0; BYTES],
            all: [0; 256],
            buffer: [0; N],
        }
    }

    // From now on so many bytes of the buffer are lent, or all where there are fewer.
    pub fn lend(&mut self, room: usize)
        ensures { self.new ≡ record self.old { room = room } }
    {
        self.desk = self.desk.with_room(room);
    }

    // One tick, and its row behind what stands on the page.
    pub fn tick<const P: usize>(&mut self, page: &mut Page<P>)
        ensures { PlaysOn (happened row tick self.old) page.old self.new page.new }
    {
        let answer = happen(
            Event::Tick,
            self.desk,
            &mut self.counters,
            &mut self.numbers,
            &mut self.paddles,
            &mut self.all,
            &mut self.buffer,
        );
        let lent = front(&self.buffer, self.desk.room);
        page.at = ledger::row(&mut page.bytes, page.at, answer, lent);
    }

    // The same, with the row at the front of the page, over what stands there.
    pub fn tick_at_front<const P: usize>(&mut self, page: &mut Page<P>)
        ensures { PlaysOn (happened row tick self.old) (page_of page.old.bytes 0) self.new page.new }
    {
        let turn = tick(
            self.desk,
            &mut self.counters,
            &mut self.numbers,
            &mut self.paddles,
            &mut self.all,
            &mut self.buffer,
            &mut page.bytes,
        );
        self.desk = turn.desk;
        page.at = turn.at;
    }

    // An event that is answered by a line.
    pub fn tell<const P: usize>(&mut self, event: Event, page: &mut Page<P>)
        ensures { PlaysOn (told (letter_of event.entry) (deed_of event.entry) self.old) page.old self.new page.new }
    {
        let turn = tell(
            event,
            self.desk,
            &mut self.counters,
            &mut self.numbers,
            &mut self.paddles,
            &mut self.all,
            &mut self.buffer,
            &mut page.bytes,
            page.at,
        );
        self.desk = turn.desk;
        page.at = turn.at;
    }
}

#[cfg(test)]
mod tests {
    use super::*;

    // The second tick is refused: one byte of the buffer is missing.
    #[test]
    fn rows_of_a_table(rt: HostRuntime) {
        let mut table = Table::<ROOM>::empty();
        let mut page = Page::<80>::new();
        page.text(b"t ");
        table.tick(&mut page);
        page.put(b',');
        table.lend(ROOM - 1);
        table.tick(&mut page);
        assert_eq!(rt;
            page.written(),
            b"t 0 0 0 0 0 0 black normal -,2 0 0 0 0 0 black normal -".as_slice()
        );
        table.tick_at_front(&mut page);
        assert_eq!(rt; page.written(), b"2 0 0 0 0 0 black normal -".as_slice());
    }
}
