// What is written, on a page: lent bytes, and the place where the next one goes. Each function answers the place behind what it
// wrote; what has no room is left out. A `Page` keeps both together.
#![tactic(auto, using(crate::proofs::Laws::step_by_step), unfolding(crate::specs::Page::put, crate::specs::Page::puts, crate::specs::Page::line, crate::specs::Page::run, crate::specs::Page::spaced, crate::specs::Page::listed, crate::specs::Page::hex_digit, crate::specs::Page::hex_of))]

ghost use Rattle.std.specs.Prelude.{◌≡◌, ◌<◌, [], ◌∷◌, take, drop, replicate};
ghost use Rattle.page.specs.Page.{page_of, puts, word, digits, hex_digit, hex_of, spaced, listed, run, dump, none, unread};

use std::marker::Model;

// A run of ticks whose rows are equal.
pub fn run(page: &mut [u8], at: usize, ticks: u64, row: &[u8]) -> usize
    ensures { page_of page.new result ≡ puts (run ticks row.now) (page_of page.old at) }
{
    let opened = text(page, at, b"t*");
    let counted = decimal(page, opened, ticks);
    let gap = put(page, counted, b' ');
    let said = text(page, gap, row);
    put(page, said, b'\n')
}

// An event, or a dump, with no switch.
pub fn none(page: &mut [u8], at: usize, letter: u8) -> usize
    ensures { page_of page.new result ≡ puts (none letter) (page_of page.old at) }
{
    let opened = open(page, at, letter);
    let said = text(page, opened, b"none");
    put(page, said, b'\n')
}

// A line that does not read, by its number.
pub fn unread(page: &mut [u8], at: usize, number: u64) -> usize
    ensures { page_of page.new result ≡ puts (unread number) (page_of page.old at) }
{
    let opened = open(page, at, b'?');
    let said = decimal(page, opened, number);
    put(page, said, b'\n')
}

// The registers.
pub fn dump(page: &mut [u8], at: usize, image: &[u8; 256]) -> usize
    ensures { page_of page.new result ≡ puts (dump image.now) (page_of page.old at) }
{
    let opened = open(page, at, b'd');
    let said = hex(page, opened, image);
    put(page, said, b'\n')
}

// Each number behind a space.
pub fn listed(page: &mut [u8], at: usize, numbers: &[u8]) -> usize
    ensures { page_of page.new result ≡ puts (listed numbers.now) (page_of page.old at) }
{
    let mut next = at;
    for number in numbers {
        next = spaced(page, next, *number as u64);
    }
    next
}

// The letter of a line, and the space behind it.
pub fn open(page: &mut [u8], at: usize, letter: u8) -> usize
    ensures { page_of page.new result ≡ puts (letter ∷ word " ") (page_of page.old at) }
{
    let next = put(page, at, letter);
    put(page, next, b' ')
}

// A number behind a space.
pub fn spaced(page: &mut [u8], at: usize, n: u64) -> usize
    ensures { page_of page.new result ≡ puts (spaced (digits n)) (page_of page.old at) }
{
    let next = put(page, at, b' ');
    decimal(page, next, n)
}

// It calls itself once a digit.
// Stays as it is: by `write!` every writer would throw a Result away, though a page never fails.
pub fn decimal(page: &mut [u8], at: usize, n: u64) -> usize
    ensures { page_of page.new result ≡ puts (digits n) (page_of page.old at) }
{
    if n < 10 {
        return put(page, at, b'0' + n as u8);
    }
    let next = decimal(page, at, n / 10);
    put(page, next, b'0' + (n % 10) as u8)
}

pub fn hex(page: &mut [u8], at: usize, bytes: &[u8]) -> usize
    ensures { page_of page.new result ≡ puts (hex_of bytes.now) (page_of page.old at) }
{
    let mut next = at;
    for byte in bytes {
        let high = put(page, next, hex_digit(*byte / 16));
        next = put(page, high, hex_digit(*byte % 16));
    }
    next
}

fn hex_digit(n: u8) -> u8
    requires { n < 16 }
    ensures { result ≡ hex_digit n }
{
    if n < 10 {
        return b'0' + n;
    }
    b'a' + (n - 10)
}

pub fn text(page: &mut [u8], at: usize, bytes: &[u8]) -> usize
    ensures { page_of page.new result ≡ puts bytes.now (page_of page.old at) }
{
    let mut next = at;
    for byte in bytes {
        next = put(page, next, *byte);
    }
    next
}

pub fn put(page: &mut [u8], at: usize, byte: u8) -> usize
    ensures { page_of page.new result ≡ puts (byte ∷ []) (page_of page.old at) }
{
    if at < page.len() {
        page[at] = byte;
        return at + 1;
    }
    at
}

// The first n bytes, or all where there are fewer.
pub fn front(bytes: &[u8], n: usize) -> &[u8]
    ensures { result.now ≡ take n bytes.now }
{
    bytes.get(..n).unwrap_or(bytes)
}

// What stands behind the first n bytes.
pub fn behind(bytes: &[u8], n: usize) -> &[u8]
    ensures { result.now ≡ drop n bytes.now }
{
    bytes.get(n..).unwrap_or(&[])
}

// A page of its own: its bytes, and the place where the next one goes.
#[derive(Clone, Copy)]
pub struct Page<const N: usize> {
    pub bytes: [u8; N],
    pub at: usize,
}

// Clauses see the page of the definitions, which has any length.
impl<const N: usize> Model for Page<N> {
    ghost use Rattle.page.specs.Page.{Page, page_of};

    ghost Value = { Page };

    ghost view = { λ p. page_of p.bytes p.at };

    ghost inverse = { λ p. record { bytes = p.bytes; at = p.at } };
}

#[tactic(auto)]
impl<const N: usize> Page<N> {
    // Nothing is written yet.
    pub fn new() -> Self
        ensures { result ≡ page_of (replicate N 0) 0 }
    {
        Page {
            bytes: [0; N],
            at: 0,
        }
    }

    // The next byte goes to the front again.
    pub fn rewind(&mut self)
        ensures { self.new ≡ page_of self.old.bytes 0 }
    {
        self.at = 0;
    }

    // What is written: the bytes in front of the place of the next one.
    pub fn written(&self) -> &[u8]
        ensures { result.now ≡ take self.now.at self.now.bytes }
    {
        front(&self.bytes, self.at)
    }

    // A run of ticks whose rows are equal.
    pub fn run(&mut self, ticks: u64, row: &[u8])
        ensures { self.new ≡ puts (run ticks row.now) self.old }
    {
        self.at = run(&mut self.bytes, self.at, ticks, row);
    }

    // An event, or a dump, with no switch.
    pub fn none(&mut self, letter: u8)
        ensures { self.new ≡ puts (none letter) self.old }
    {
        self.at = none(&mut self.bytes, self.at, letter);
    }

    // A line that does not read, by its number.
    pub fn unread(&mut self, number: u64)
        ensures { self.new ≡ puts (unread number) self.old }
    {
        self.at = unread(&mut self.bytes, self.at, number);
    }

    // The registers.
    pub fn dump(&mut self, image: &[u8; 256])
        ensures { self.new ≡ puts (dump image.now) self.old }
    {
        self.at = dump(&mut self.bytes, self.at, image);
    }

    // Each number behind a space.
    pub fn listed(&mut self, numbers: &[u8])
        ensures { self.new ≡ puts (listed numbers.now) self.old }
    {
        self.at = listed(&mut self.bytes, self.at, numbers);
    }

    // The letter of a line, and the space behind it.
    pub fn open(&mut self, letter: u8)
        ensures { self.new ≡ puts (letter ∷ word " ") self.old }
    {
        self.at = open(&mut self.bytes, self.at, letter);
    }

    // A number behind a space.
    pub fn spaced(&mut self, n: u64)
        ensures { self.new ≡ puts (spaced (digits n)) self.old }
    {
        self.at = spaced(&mut self.bytes, self.at, n);
    }

    pub fn decimal(&mut self, n: u64)
        ensures { self.new ≡ puts (digits n) self.old }
    {
        self.at = decimal(&mut self.bytes, self.at, n);
    }

    pub fn hex(&mut self, bytes: &[u8])
        ensures { self.new ≡ puts (hex_of bytes.now) self.old }
    {
        self.at = hex(&mut self.bytes, self.at, bytes);
    }

    pub fn text(&mut self, bytes: &[u8])
        ensures { self.new ≡ puts bytes.now self.old }
    {
        self.at = text(&mut self.bytes, self.at, bytes);
    }

    pub fn put(&mut self, byte: u8)
        ensures { self.new ≡ puts (byte ∷ []) self.old }
    {
        self.at = put(&mut self.bytes, self.at, byte);
    }
}
