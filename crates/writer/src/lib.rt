// A packet written from its header and its message, by the layout that it is read by.
#![tactic(auto)]

ghost use Rattle.std.specs.Prelude.{◌≡◌, ◌+◌, ◌≤◌, true, [], ◌++◌, length, drop};
ghost use Rattle.packet.specs.Layout.{first_byte, second_byte, head_bytes, balance, packed};
ghost use Rattle.writer.specs.Writing.{fields_in_range, Wrote};

use packet::{HEAD, Header, THREE_BITS, TWO_BITS, sum};

// The longest message.
const LONGEST: usize = 18;

// The bytes around a message: the five of the header, and the checksum.
const AROUND: u8 = 6;

// Why the writer refuses: the numbers 15 and 2.
#[derive(Clone, Copy, Debug, PartialEq, Eq)]
pub enum Unwritten {
    Field,
    Short,
}

// Lays header, message and checksum at the front of the buffer and answers how long the packet is, or leaves the buffer alone.
#[tactic(auto, using(crate::proofs::Laws::ranges), unfolding(crate::specs::Writing::written_of, crate::specs::Writing::laid))]
pub fn write(header: Header, message: &[u8], out: &mut [u8]) -> Result<u8, Unwritten>
    ensures { Wrote header message.now out.old result out.new }
{
    let size = message.len();
    if !ranged(header, size) {
        return Err(Unwritten::Field);
    }
    let whole = size as u8 + AROUND;
    if out.len() < whole as usize {
        return Err(Unwritten::Short);
    }
    lay(header, message, out);
    Ok(whole)
}

// Stays as it is: a header that is in range is no type of its own. `first` and `second` ask for their own fields alone.
#[tactic(auto, unfolding(crate::specs::Writing::fields_in_range))]
fn ranged(header: Header, size: usize) -> bool
    ensures { result ≡ fields_in_range header size }
{
    header.repeat <= TWO_BITS
        && header.request <= THREE_BITS
        && header.count <= TWO_BITS
        && header.sequence <= TWO_BITS
        && 1 <= size
        && size <= LONGEST
}

// The packet at the front of the buffer.
fn lay(header: Header, message: &[u8], out: &mut [u8])
    requires { (fields_in_range header (length message.now) ≡ true) × (length message.now + 6 ≤ length out.old) }
    ensures { out.new ≡ packed header message.now ++ drop (length message.now + 6) out.old }
{
    let size = message.len();
    let checksum = HEAD + size;
    out[..HEAD].copy_from_slice(&head(header, size));
    out[HEAD..checksum].copy_from_slice(message);
    out[checksum] = balance(sum(&out[..checksum]));
}

// The five bytes before the message.
#[tactic(auto, using(crate::proofs::Laws::ranges), unfolding(packet::specs::Layout::head_bytes))]
fn head(header: Header, size: usize) -> [u8; HEAD]
    requires { fields_in_range header size ≡ true }
    ensures { result ≡ head_bytes header size [] }
{
    [
        first(header.link, header.repeat, size as u8 + AROUND),
        second(header.request, header.count, header.sequence),
        header.network,
        header.destination,
        header.source,
    ]
}

// Stays as it is: shifts and masks are the form named for the header's bits (docs/DECISIONS.md 81).
#[tactic(auto, unfolding(packet::specs::Layout::first_byte))]
fn first(link: bool, repeat: u8, whole: u8) -> u8
    requires { (repeat ≤ 3) × (whole ≤ 31) }
    ensures { result ≡ first_byte link repeat whole }
{
    (link as u8) << 7 | (repeat << 5 | whole)
}

#[tactic(auto, unfolding(packet::specs::Layout::second_byte))]
fn second(request: u8, count: u8, sequence: u8) -> u8
    requires { (request ≤ 7) × ((count ≤ 3) × (sequence ≤ 3)) }
    ensures { result ≡ second_byte request count sequence }
{
    request << 4 | (count << 2 | sequence)
}

// The checksum for a sum.
#[tactic(auto, unfolding(packet::specs::Layout::balance))]
fn balance(sum: u8) -> u8
    ensures { result ≡ balance sum }
{
    sum.wrapping_neg()
}
