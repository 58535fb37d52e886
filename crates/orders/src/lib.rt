// What a packet's work is made of: what a drive does to the dimmer, and what a Store writes.
#![tactic(auto)]

ghost use Rattle.std.specs.Prelude.{◌≡◌};
ghost use Rattle.orders.specs.Orders.{driven, stored};

use acts::set_by;
use dimmer::Dimmer;
use judge::Drive;
use units::{Percent, Step};
use writes::Write;

// What a drive makes of the dimmer, by what the registers say now.
pub fn drive(dimmer: Dimmer, all: &[u8; 256], drive: Drive) -> Dimmer
    ensures { result ≡ driven all.now drive dimmer }
{
    match drive {
        Drive::Activate(i) => {
            let component = places::component_at(all, i);
            set_by(dimmer, all, component.level, component.rate)
        }
        Drive::Deactivate(i) => {
            let component = places::component_at(all, i);
            set_by(dimmer, all, 0, component.rate)
        }
        Drive::Goto { level, rate } => set_by(dimmer, all, level, rate),
        Drive::Stop => dimmer.stop(),
        Drive::Blink(value) => dimmer.blink(value),
    }
}

// The write of a Store: the level, as a percent, becomes the component's.
pub fn stored(level: Step, component: u8) -> Write
    ensures { result ≡ stored level component }
{
    let percent = Percent::from(level);
    Write::Preset { component, percent }
}
