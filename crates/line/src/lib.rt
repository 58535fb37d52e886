// A line of a script read: what it says, and the bytes that its hex stands for.
#![tactic(auto)]

ghost use Rattle.std.specs.Prelude.{◌≡◌, ◌≤◌, ◌/◌, true, Some, length, drop};
ghost use Rattle.line.specs.Reading.{bare, gap, blank, digits, number_of, hex, hex_of, image_of, packet_of};
ghost use Rattle.line.specs.Reading.{counted, told, alone, said, laid, Says, Reads};

// The longest line, its CR counted.
const LONGEST: usize = 2048;

// The longest packet.
const PACKET: usize = 256;

// The largest numbers: of a contact, of the buffer's bytes, and of the ticks of one line.
const CONTACT: u32 = 255;

const ROOM: u32 = 4096;

const TICKS: u32 = u32::MAX;

// A line of a script that reads. `Pass` is passed over; `Image` and `Packet` say how many bytes they have.
// Stays as it is: a line that held its bytes would borrow them from the lent ones, and of what a result borrows no contract can say
// the end.
#[derive(Clone, Copy)]
pub enum Line {
    Pass,
    Image(usize),
    Room(u16),
    Press(u8),
    Release(u8),
    Ticks(u32),
    Packet(usize),
    Restart,
    Dump,
}

// The line, if it reads, and the bytes that its hex stands for in front of the lent ones. `text` is without its newline, its CR
// still on it.
#[tactic(auto, unfolding(crate::specs::Reading::line_of))]
pub fn read(text: &[u8], bytes: &mut [u8]) -> Option<Line>
    ensures { Reads text.now bytes.old result bytes.new }
{
    if LONGEST < text.len() {
        return None;
    }
    said(bare(text), bytes)
}

// One CR just before the line's end is passed over.
#[tactic(auto, unfolding(crate::specs::Reading::bare))]
fn bare(text: &[u8]) -> &[u8]
    ensures { result.now ≡ bare text.now }
{
    match text {
        [line @ .., b'\r'] => line,
        _ => text,
    }
}

// A line without its CR.
#[tactic(auto, using(crate::proofs::Reading::alone_bytes), unfolding(crate::specs::Reading::said))]
fn said(line: &[u8], bytes: &mut [u8]) -> Option<Line>
    ensures { Says (said (length bytes.old) line.now) (drop 2 line.now) bytes.old result bytes.new }
{
    if blank(line) {
        return Some(Line::Pass);
    }
    match line {
        [b'#', ..] => Some(Line::Pass),
        [letter] => alone(*letter),
        [letter, b' ', argument @ ..] => told(*letter, argument, bytes),
        _ => None,
    }
}

// Nothing but spaces and tabs.
fn blank(text: &[u8]) -> bool
    ensures { result ≡ blank text.now }
{
    text.iter().all(|byte| matches!(byte, b' ' | b'\t'))
}

// A letter that stands alone.
#[tactic(auto, unfolding(crate::specs::Reading::alone))]
fn alone(letter: u8) -> Option<Line>
    ensures { result ≡ alone letter }
{
    match letter {
        b'x' => Some(Line::Restart),
        b'd' => Some(Line::Dump),
        _ => None,
    }
}

// A letter and its argument.
#[tactic(auto, using(crate::proofs::Reading::counted_bytes), unfolding(crate::specs::Reading::told))]
fn told(letter: u8, argument: &[u8], bytes: &mut [u8]) -> Option<Line>
    ensures { Says (told (length bytes.old) letter argument.now) argument.now bytes.old result bytes.new }
{
    match letter {
        b'i' => image(argument, bytes),
        b'k' => packet(argument, bytes),
        _ => counted(letter, argument),
    }
}

#[tactic(auto, using(crate::proofs::Reading::hex_reads), unfolding(crate::specs::Reading::image_of))]
fn image(argument: &[u8], bytes: &mut [u8]) -> Option<Line>
    ensures { Says (image_of (length bytes.old) argument.now) argument.now bytes.old result bytes.new }
{
    if !hex(argument, bytes.len()) {
        return None;
    }
    lay(argument, bytes);
    Some(Line::Image(argument.len() / 2))
}

// `-` stands for no bytes.
#[tactic(auto, using(crate::proofs::Reading::hex_reads, crate::proofs::Reading::dash_none), unfolding(crate::specs::Reading::packet_of))]
fn packet(argument: &[u8], bytes: &mut [u8]) -> Option<Line>
    ensures { Says (packet_of (length bytes.old) argument.now) argument.now bytes.old result bytes.new }
{
    if matches!(argument, [b'-']) {
        return Some(Line::Packet(0));
    }
    let count = argument.len() / 2;
    if !hex(argument, bytes.len()) || PACKET < count {
        return None;
    }
    lay(argument, bytes);
    Some(Line::Packet(count))
}

// One or more pairs of hex digits, with room for the bytes that they stand for.
#[tactic(auto, unfolding(crate::specs::Reading::hex))]
fn hex(text: &[u8], room: usize) -> bool
    ensures { result ≡ hex room text.now }
{
    let size = text.len();
    1 <= size && size % 2 == 0 && size / 2 <= room && text.iter().all(u8::is_ascii_hexdigit)
}

// The bytes that the pairs stand for, at the front of the lent ones.
#[tactic(auto, using(crate::proofs::Reading::lay_steps))]
fn lay(text: &[u8], bytes: &mut [u8])
    requires { (digits 16 text.now ≡ true) × (length text.now / 2 ≤ length bytes.old) }
    ensures { bytes.new ≡ laid (hex_of text.now) bytes.old }
{
    for (i, pair) in text.chunks_exact(2).enumerate() {
        let high = char::from(pair[0]).to_digit(16).unwrap();
        let low = char::from(pair[1]).to_digit(16).unwrap();
        bytes[i] = (16 * high + low) as u8;
    }
}

// A letter with a number.
#[tactic(auto, using(crate::proofs::Reading::number_within), unfolding(crate::specs::Reading::counted))]
fn counted(letter: u8, argument: &[u8]) -> Option<Line>
    ensures { result ≡ counted letter argument.now }
{
    match letter {
        b'b' => Some(Line::Room(decimal(argument, ROOM)? as u16)),
        b'p' => Some(Line::Press(decimal(argument, CONTACT)? as u8)),
        b'r' => Some(Line::Release(decimal(argument, CONTACT)? as u8)),
        b't' => Some(Line::Ticks(decimal(argument, TICKS)?)),
        _ => None,
    }
}

// The number of one or more decimal digits, up to `limit`. A value above the limit never comes back to it.
#[tactic(auto, using(crate::proofs::Reading::decimal_steps))]
fn decimal(text: &[u8], limit: u32) -> Option<u32>
    ensures { result ≡ number_of limit text.now }
{
    if text.is_empty() {
        return None;
    }
    let mut value = 0;
    for byte in text {
        let digit = char::from(*byte).to_digit(10)?;
        value = 10 * value + u64::from(digit);
        if u64::from(limit) < value {
            return None;
        }
    }
    Some(value as u32)
}
