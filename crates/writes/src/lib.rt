// All that may be written to the registers, and the one function that writes it.
#![tactic(auto)]

ghost use Rattle.std.specs.Prelude.{◌≡◌, ◌<◌, length};
ghost use Rattle.vault.specs.Job.{became, changed};
ghost use Rattle.writes.specs.Writes.{applied, byte_of, change_of, one_more, factory_by, stored, values_by};

use places::{Counter, DIMMING, FIRST, LIGHT, NETWORK, SAVED, SECOND, SIZE, UNIT, level_place};
use units::Percent;
use vault::Password;

// What an event writes. The bytes of `Values` are lent beside it.
// Stays as it is: no Option of a write. Two acts write nothing (`unwritten`, `to_save`), and all others would wrap what they write. And a
// write that held its values would put the packet's lifetime into Effect, Work and Order, and a reference into the definitions that the
// promises are written in.
#[derive(Clone, Copy)]
pub enum Write {
    Nothing,
    Count(Counter),
    Save(Percent),
    Preset { component: u8, percent: Percent },
    Factory,
    Values { first: u8 },
}

// The stretches of factory values: from CLEARED on 0, from FILLED on 255 but for a few places; from LEFT on all stays.
const CLEARED: usize = 0x10;

const FILLED: usize = 0x40;

const LEFT: usize = 0xC0;

const PASSWORD: Password = Password(0x12, 0x34);

// The action table, and its factory values.
const TABLE: usize = 0x7A;

const ACTIONS: [u8; 8] = [100, 255, 100, 0, 0, 255, 0, 0];

// The array's part of a write; the password's two places are left alone.
#[tactic(auto, using(places::proofs::Laws::counter_within), unfolding(crate::specs::Writes::applied))]
pub fn apply(write: Write, values: &[u8], all: &mut [u8; 256])
    ensures { all.new ≡ applied write values.now all.old }
{
    match write {
        Write::Nothing => {}
        Write::Count(counter) => {
            let place = counter.place();
            store(place, more(all[place]), all);
        }
        Write::Save(percent) => store(SAVED, percent.0, all),
        Write::Preset { component, percent } => store(level_place(component), percent.0, all),
        Write::Factory => store_factory(all),
        Write::Values { first } => store_values(first, values, all),
    }
}

// What becomes of the password when the same is written.
#[tactic(auto, unfolding(crate::specs::Writes::change_of, crate::specs::Writes::change_at, crate::specs::Writes::factory_at, vault::specs::Job::changed, vault::specs::Job::became))]
pub fn password(write: Write, values: &[u8], old: Password) -> Password
    ensures { result ≡ changed (change_of write values.now) old }
{
    match write {
        Write::Nothing | Write::Count(_) | Write::Save(_) | Write::Preset { .. } => old,
        Write::Factory => PASSWORD,
        Write::Values { first } => {
            let start = first as usize;
            Password(
                byte(FIRST, start, values, old.0),
                byte(SECOND, start, values, old.1),
            )
        }
    }
}

// A counter does not wrap.
#[tactic(auto, unfolding(crate::specs::Writes::one_more))]
fn more(value: u8) -> u8
    ensures { result ≡ one_more value }
{
    value.saturating_add(1)
}

// The password's bytes are not held here, and past 0xFF there is nothing to write to.
#[tactic(auto, unfolding(crate::specs::Writes::stored))]
fn store(place: usize, value: u8, all: &mut [u8; 256])
    ensures { all.new ≡ stored place value all.old }
{
    if place != FIRST && place != SECOND && place < SIZE {
        all[place] = value;
    }
}

// From the last line of `factory_at` up: what it asks first is written last. Its 0x02 and 0x03 are the password's.
fn store_factory(all: &mut [u8; 256])
    ensures { all.new ≡ factory_by 256 all.old }
{
    all[FILLED..LEFT].fill(255);
    all[DIMMING] = 0x13;
    all[LIGHT] = 0x09;
    all[TABLE..TABLE + ACTIONS.len()].copy_from_slice(&ACTIONS);
    all[CLEARED..FILLED].fill(0);
    all[UNIT] = 1;
    all[NETWORK] = 255;
}

// Past the password and within the registers the values are copied; elsewhere each place is looked at.
#[tactic(auto, using(crate::proofs::Writing::values_laid))]
fn store_values(first: u8, values: &[u8], all: &mut [u8; 256])
    ensures { all.new ≡ values_by (length values.now) first values.now all.old }
{
    let start = first as usize;
    let end = start + values.len();
    if SECOND < start && end <= SIZE {
        all[start..end].copy_from_slice(values);
    } else {
        store_each(first, values, all);
    }
}

#[tactic(auto, using(crate::proofs::Writing::values_more), unfolding(crate::specs::Writes::values_by))]
fn store_each(first: u8, values: &[u8], all: &mut [u8; 256])
    ensures { all.new ≡ values_by (length values.now) first values.now all.old }
{
    for (i, value) in values.iter().enumerate() {
        store(first as usize + i, *value, all);
    }
}

// The password's byte at a place, after values from `first` on.
#[tactic(auto, unfolding(crate::specs::Writes::byte_of, vault::specs::Job::became))]
fn byte(place: usize, first: usize, values: &[u8], old: u8) -> u8
    ensures { result ≡ became (byte_of place first values.now) old }
{
    if place < first {
        return old;
    }
    values.get(place - first).copied().unwrap_or(old)
}
