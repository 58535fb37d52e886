// What is written of a start and of an event, on a page.
#![tactic(auto, using(crate::proofs::Writing::step_by_step), unfolding(page::specs::Page::puts, page::specs::Page::spaced, page::specs::Page::line, crate::specs::Writing::state, crate::specs::Writing::counts, crate::specs::Writing::row, crate::specs::Writing::started, crate::specs::Writing::packets, crate::specs::Writing::joined, crate::specs::Writing::more, crate::specs::Writing::outside, crate::specs::Writing::untouched, crate::specs::Writing::spilt))]

ghost use Rattle.std.specs.Prelude.{◌≡◌};
ghost use Rattle.page.specs.Page.{page_of, puts};
ghost use Rattle.ledger.specs.Writing.{colour_word, mode_word, state, joined, packets, outside, untouched, spilt, counts, row, started, answered};

use answers::Answer;
use lamp::Colour;
use model::PLACE;
use outbox::Sent;
use page::{behind, decimal, front, hex, listed, open, put, spaced, text};
use vault::Mode;

// What the buffer is filled with before every event.
pub const FILL: u8 = 0xAA;

// The answer to a start.
pub fn started(page: &mut [u8], at: usize, answer: Answer) -> usize
    ensures { page_of page.new result ≡ puts (started answer) (page_of page.old at) }
{
    let opened = open(page, at, b'i');
    let mut said = decimal(page, opened, answer.number as u64);
    if answer.number == 0 {
        said = state(page, said, answer);
    }
    put(page, said, b'\n')
}

// The answer to an event, by the letter of its line.
pub fn answered(page: &mut [u8], at: usize, letter: u8, answer: Answer, out: &[u8]) -> usize
    ensures { page_of page.new result ≡ puts (answered letter answer out.now) (page_of page.old at) }
{
    let opened = open(page, at, letter);
    let said = row(page, opened, answer, out);
    put(page, said, b'\n')
}

// The answer to an event, from its number on and without the line's end.
pub fn row(page: &mut [u8], at: usize, answer: Answer, out: &[u8]) -> usize
    ensures { page_of page.new result ≡ puts (row answer out.now) (page_of page.old at) }
{
    let counted = counts(page, at, answer.number, answer.sent);
    let shown = state(page, counted, answer);
    let gap = put(page, shown, b' ');
    let listed = packets(page, gap, answer.sent, out);
    spilt(page, listed, answer.sent, out)
}

// The number, and of the packets the count and each length.
fn counts(page: &mut [u8], at: usize, number: u8, sent: Sent) -> usize
    ensures { page_of page.new result ≡ puts (counts number sent) (page_of page.old at) }
{
    let numbered = decimal(page, at, number as u64);
    let counted = spaced(page, numbered, sent.count as u64);
    listed(page, counted, &sent.lengths)
}

// Level, output, colour and mode.
fn state(page: &mut [u8], at: usize, answer: Answer) -> usize
    ensures { page_of page.new result ≡ puts (state answer) (page_of page.old at) }
{
    let level = spaced(page, at, answer.level.0 as u64);
    let output = spaced(page, level, answer.output.0 as u64);
    let gap = put(page, output, b' ');
    let colour = text(page, gap, colour_word(answer.colour));
    let gap = put(page, colour, b' ');
    text(page, gap, mode_word(answer.mode))
}

// Stays as it is: a page is written by bytes. By Display and `write!` each word would give a Result to be thrown away.
fn colour_word(colour: Colour) -> &'static [u8]
    ensures { result.now ≡ colour_word colour }
{
    match colour {
        Colour::Black => b"black",
        Colour::Red => b"red",
        Colour::Green => b"green",
        Colour::Orange => b"orange",
    }
}

fn mode_word(mode: Mode) -> &'static [u8]
    ensures { result.now ≡ mode_word mode }
{
    match mode {
        Mode::Normal => b"normal",
        Mode::Setup => b"setup",
        Mode::Factory => b"factory",
    }
}

// As many packets as were sent.
fn packets(page: &mut [u8], at: usize, sent: Sent, out: &[u8]) -> usize
    ensures { page_of page.new result ≡ puts (packets sent out.now) (page_of page.old at) }
{
    joined(page, at, front(&sent.lengths, sent.count as usize), out)
}

// The packets that lie in the buffer, each in its place, with a comma between them.
fn joined(page: &mut [u8], at: usize, sizes: &[u8], out: &[u8]) -> usize
    ensures { page_of page.new result ≡ puts (joined sizes.now out.now) (page_of page.old at) }
{
    let Some((first, others)) = sizes.split_first() else {
        return put(page, at, b'-');
    };
    let mut next = hex(page, at, front(out, *first as usize));
    let mut place = out;
    for size in others {
        place = behind(place, PLACE);
        let comma = put(page, next, b',');
        next = hex(page, comma, front(place, *size as usize));
    }
    next
}

fn spilt(page: &mut [u8], at: usize, sent: Sent, out: &[u8]) -> usize
    ensures { page_of page.new result ≡ puts (spilt sent out.now) (page_of page.old at) }
{
    if kept(sent, out) {
        return at;
    }
    text(page, at, b" spilt")
}

// Whether all bytes outside the packets are as they were: in each place those behind its packet, and those behind the places.
fn kept(sent: Sent, out: &[u8]) -> bool
    ensures { result ≡ untouched (outside sent.lengths out.now) }
{
    let mut rest = out;
    for length in sent.lengths {
        let place = front(rest, PLACE);
        if !untouched(behind(place, length as usize)) {
            return false;
        }
        rest = behind(rest, PLACE);
    }
    untouched(rest)
}

// It looks at every byte and has no way out before the end: a large buffer is looked through many bytes at a time.
fn untouched(bytes: &[u8]) -> bool
    ensures { result ≡ untouched bytes.now }
{
    let mut same = true;
    for byte in bytes {
        same &= *byte == FILL;
    }
    same
}
