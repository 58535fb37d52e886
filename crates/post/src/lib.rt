// What a switch sends: a link packet, noted while its event goes on and laid at its end, and a reply to a packet.
#![tactic(auto)]

ghost use Rattle.std.specs.Prelude.{◌≡◌, ◌≤◌, length};
ghost use Rattle.packet.specs.Layout.{header};
ghost use Rattle.post.specs.Post.{replied, enveloped};
ghost use Rattle.post.specs.Code.{sent_of, Bare, Laid};

use packet::Header;
use units::Percent;
use vault::Password;

// First bytes of the two replies; the first one's may be a gesture's message too.
pub const STATUS: u8 = 0x86;

const VALUES: u8 = 0x90;

// The most values that a reply holds.
const MOST: u8 = 16;

// A message of one to three bytes. Stays as it is: there is no heap, and an array with a length would hold lengths that no message has.
#[derive(Clone, Copy)]
pub enum Message {
    One(u8),
    Two(u8, u8),
    Three(u8, u8, u8),
}

// A link packet still to be laid, with network, source and link as the registers stood at its gesture.
#[derive(Clone, Copy)]
pub struct Note {
    pub network: u8,
    pub source: u8,
    pub destination: u8,
    pub message: Message,
}

// What a packet is answered with.
// Stays as it is: an Option of a reply was tried. Each caller has a reply and would wrap it, and a Goto took 30 instructions more.
#[derive(Clone, Copy)]
pub enum Reply {
    Silence,
    Status,
    Registers { first: u8, count: u8 },
}

// Lays the packet of a note, if there is one, at the front of a place and answers its whole length: 0 where there is none, or no
// room for it. Stays as it is: C is handed these lengths, and 0 for no packet.
#[tactic(auto, using(crate::proofs::Laws::laid_nothing, crate::proofs::Laws::placed_nothing), unfolding(crate::specs::Code::sent_of, crate::specs::Code::front, crate::specs::Post::bytes_of, crate::specs::Post::enveloped))]
pub fn lay(note: Option<Note>, out: &mut [u8]) -> u8
    ensures { Laid (sent_of note) out.old result out.new }
{
    let Some(note) = note else {
        return 0;
    };
    let header = bare(true, note.network, note.destination, note.source);
    match note.message {
        Message::One(command) => put(header, &[command], out),
        Message::Two(command, first) => put(header, &[command, first], out),
        Message::Three(command, first, second) => put(header, &[command, first, second], out),
    }
}

// Lays a reply to the one who asked likewise. `seen` holds the password only where the caller may show it.
#[tactic(auto, using(crate::proofs::Laws::laid_nothing, crate::proofs::Laws::placed_nothing), unfolding(crate::specs::Code::front, crate::specs::Post::replied, crate::specs::Post::reply_message, crate::specs::Post::bytes_of, crate::specs::Post::enveloped))]
pub fn send(
    all: &[u8; 256],
    seen: Option<Password>,
    to: u8,
    reply: Reply,
    percent: Percent,
    out: &mut [u8],
) -> u8
    ensures { Laid (replied all.now seen to reply percent) out.old result out.new }
{
    let header = bare(false, places::network(all), to, places::unit(all));
    match reply {
        Reply::Silence => 0,
        Reply::Status => put(header, &[STATUS, percent.0], out),
        Reply::Registers { first, count } => {
            let mut bytes = [0; 18];
            bytes[0] = VALUES;
            bytes[1] = first;
            let end = 2 + MOST.min(count) as usize;
            registers::range(all, seen, first, &mut bytes[2..end]);
            put(header, &bytes[..end], out)
        }
    }
}

// The header of every packet that is sent: repeat, request, count and sequence bits are 0.
fn bare(link: bool, network: u8, destination: u8, source: u8) -> Header
    ensures { result ≡ header link network destination source }
{
    Header {
        link,
        repeat: 0,
        request: 0,
        count: 0,
        sequence: 0,
        network,
        destination,
        source,
    }
}

// The one way out.
fn put(header: Header, message: &[u8], out: &mut [u8]) -> u8
    requires own { Bare header }
    requires few { length message.now ≤ 18 }
    ensures { Laid (enveloped header message.now) out.old result out.new }
{
    writer::write(header, message, out).unwrap_or(0)
}
