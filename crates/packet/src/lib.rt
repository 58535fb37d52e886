// The packet on the line: its header read and checked, and its message handed back.
#![tactic(auto)]

ghost use Rattle.std.specs.Prelude.{◌≡◌, ◌%◌};
ghost use Rattle.packet.specs.Layout.{whole_in, reserved_in, header_in, total};
ghost use Rattle.packet.specs.Reading.{read_of, number_of_flaw, number_of_frame, message_from};

// The shortest and the longest packet.
const LEAST: usize = 7;

const MOST: usize = 24;

// The message stands behind the five bytes of the header.
pub const HEAD: usize = 5;

// The most that fields of two, three and five bits hold.
pub const TWO_BITS: u8 = 3;

pub const THREE_BITS: u8 = 7;

const FIVE_BITS: u8 = 31;

// The header's fields, but for the whole length, which follows from the message, and the reserved bit, which is 0.
#[derive(Clone, Copy)]
pub struct Header {
    pub link: bool,
    pub repeat: u8,
    pub request: u8,
    pub count: u8,
    pub sequence: u8,
    pub network: u8,
    pub destination: u8,
    pub source: u8,
}

// Why the reader refuses a packet: the numbers 4 to 8. Stays as it is: `number` says what it gives, which `u8::from` would not.
#[derive(Clone, Copy, Debug, PartialEq, Eq)]
pub enum Flaw {
    Short,
    Long,
    Length,
    Sum,
    Reserved,
}

impl Flaw {
    pub fn number(self) -> u8
        ensures { result ≡ number_of_flaw self }
    {
        match self {
            Flaw::Short => 4,
            Flaw::Long => 5,
            Flaw::Length => 6,
            Flaw::Sum => 7,
            Flaw::Reserved => 8,
        }
    }
}

// The number of the reader's answer: 0 for a header.
pub fn number(frame: Result<Header, Flaw>) -> u8
    ensures { result ≡ number_of_frame frame }
{
    match frame {
        Ok(_) => 0,
        Err(flaw) => flaw.number(),
    }
}

// Checks the packet and takes its header out.
#[tactic(auto, unfolding(crate::specs::Reading::read_of))]
pub fn read(packet: &[u8]) -> Result<Header, Flaw>
    ensures { result ≡ read_of packet.now }
{
    let size = packet.len();
    if size < LEAST {
        return Err(Flaw::Short);
    }
    if MOST < size {
        return Err(Flaw::Long);
    }
    let first = packet[0];
    if whole(first) as usize != size {
        return Err(Flaw::Length);
    }
    if sum(packet) != 0 {
        return Err(Flaw::Sum);
    }
    let second = packet[1];
    if reserved(second) != 0 {
        return Err(Flaw::Reserved);
    }
    Ok(fields(first, second, packet[2], packet[3], packet[4]))
}

// The message, lent out of the caller's packet, by what the reader answered to it; empty where that is a refusal.
pub fn message(frame: Result<Header, Flaw>, packet: &[u8]) -> &[u8]
    ensures { result.now ≡ message_from frame packet.now }
{
    let Ok(_) = frame else {
        return &packet[..0];
    };
    let size = packet.len();
    if size < LEAST {
        return &packet[..0];
    }
    let checksum = size - 1;
    &packet[HEAD..checksum]
}

// Byte 0, bits 4-0.
#[tactic(auto, unfolding(crate::specs::Layout::whole_in))]
fn whole(first: u8) -> u8
    ensures { result ≡ whole_in first }
{
    first & FIVE_BITS
}

// Byte 1, bit 7.
#[tactic(auto, unfolding(crate::specs::Layout::reserved_in))]
fn reserved(second: u8) -> u8
    ensures { result ≡ reserved_in second }
{
    second >> 7 & 1
}

// Stays as it is: shifts and masks are the form named for the header's bits (docs/DECISIONS.md 81).
#[tactic(auto, unfolding(crate::specs::Layout::header_in))]
fn fields(first: u8, second: u8, network: u8, destination: u8, source: u8) -> Header
    ensures { result ≡ header_in first second network destination source }
{
    Header {
        link: first >> 7 & 1 == 1,
        repeat: first >> 5 & TWO_BITS,
        request: second >> 4 & THREE_BITS,
        count: second >> 2 & TWO_BITS,
        sequence: second & TWO_BITS,
        network,
        destination,
        source,
    }
}

// The sum of all bytes, modulo 256.
pub fn sum(bytes: &[u8]) -> u8
    ensures { result ≡ total bytes.now % 256 }
{
    bytes.iter().fold(0u8, |sum, byte| sum.wrapping_add(*byte))
}
