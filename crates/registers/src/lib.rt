// The 256 registers, with the password held apart from them: the bytes at 0x02 and 0x03 are dead.
#![tactic(auto)]

ghost use Rattle.std.specs.Prelude.{◌≡◌, ◌<◌, length};
ghost use Rattle.registers.specs.Registers.{image_of, range_of, held_at, masked, found, valid};
ghost use Rattle.registers.specs.Code.{Took};

use places::{COMPONENTS, FIRST, SECOND, SIZE};
use vault::Password;

// Copies a lent image into the registers and takes the password out of it. Where the image is not 256 bytes there is none
// (wakes answers 1), and the registers keep theirs.
#[tactic(auto, unfolding(crate::specs::Code::taken_of, crate::specs::Code::after_taking, crate::specs::Registers::apart, crate::specs::Registers::password_in))]
pub fn take(image: &[u8], all: &mut [u8; 256]) -> Option<Password>
    ensures { Took image.now all.old result all.new }
{
    let image: &[u8; 256] = image.try_into().ok()?;
    *all = *image;
    all[FIRST] = 0;
    all[SECOND] = 0;
    Some(Password(image[FIRST], image[SECOND]))
}

// The 256 bytes with the password put back, for the owner to save.
#[tactic(auto, unfolding(crate::specs::Registers::image_of))]
pub fn image(all: &[u8; 256], password: Password, out: &mut [u8; 256])
    ensures { out.new ≡ image_of all.now password }
{
    *out = *all;
    out[FIRST] = password.0;
    out[SECOND] = password.1;
}

// Fills the lent bytes with as many registers, from `first` on. `seen` is the password, or none where it is hidden. Past it and
// within the registers the bytes are copied, whatever the reader was handed.
#[tactic(auto, using(crate::proofs::Laws::range_plain))]
pub fn range(all: &[u8; 256], seen: Option<Password>, first: u8, out: &mut [u8])
    ensures { out.new ≡ range_of all.now seen first (length out.old) }
{
    let start = first as usize;
    let end = start + out.len();
    if SECOND < start && end <= SIZE {
        out.copy_from_slice(&all[start..end]);
    } else {
        read_each(all, seen, first, out);
    }
}

// Elsewhere each place is looked at.
#[tactic(auto, using(crate::proofs::Laws::range_is), unfolding(crate::specs::Registers::read_at))]
fn read_each(all: &[u8; 256], seen: Option<Password>, first: u8, out: &mut [u8])
    ensures { out.new ≡ range_of all.now seen first (length out.old) }
{
    for (i, byte) in out.iter_mut().enumerate() {
        let place = first as usize + i;
        *byte = masked(seen, place, register(all, place));
    }
}

// The array's byte of a place.
fn register(all: &[u8; 256], place: usize) -> u8
    ensures { result ≡ held_at all.now place }
{
    all.get(place).copied().unwrap_or(0)
}

// The password's places show what the reader was handed, whatever the array holds there.
#[tactic(auto, unfolding(crate::specs::Registers::password_seen))]
fn masked(seen: Option<Password>, place: usize, held: u8) -> u8
    ensures { result ≡ masked seen place held }
{
    let password = seen.unwrap_or(Password(0, 0));
    match place {
        FIRST => password.0,
        SECOND => password.1,
        _ => held,
    }
}

// A link is neither 0 nor 255.
#[tactic(auto, unfolding(crate::specs::Registers::valid))]
pub fn valid(link: u8) -> bool
    ensures { result ≡ valid link }
{
    0 < link && link < 255
}

// The lowest component with this link.
// Stays as it is: document 01 names this form (docs/DECISIONS.md 74).
#[tactic(auto, using(crate::proofs::Finding::seek_stops, crate::proofs::Finding::seek_passes, crate::proofs::Finding::seek_ends), unfolding(crate::specs::Registers::found))]
pub fn find(all: &[u8; 256], link: u8) -> Option<u8>
    ensures { result ≡ found all.now link }
{
    if !valid(link) {
        return None;
    }
    let mut i: u8 = 0;
    loop {
        if i == COMPONENTS {
            break None;
        }
        let place = places::link_place(i);
        let own = all[place];
        if own == link {
            break Some(i);
        }
        i += 1;
    }
}
