// What a paddle's gesture does by the mode it finds. The paddle is known by its number; `model` says what it is to the load.
#![tactic(auto)]

ghost use Rattle.std.specs.Prelude.{◌≡◌};
ghost use Rattle.gestures.specs.Gestures.{acted, acted_in_normal, acted_in_setup, acted_in_factory, taps_in_normal, taps_in_setup, taps_in_factory, by_action, holding, far};

use acts::{Core, Effect};
use levels::Options;
use paddle::Gesture;
use places::Action;
use vault::Mode;
use writes::Write;

// In Setup nothing but taps acts.
#[tactic(auto, unfolding(crate::specs::Gestures::acted, crate::specs::Gestures::acted_in, crate::specs::Gestures::acted_in_normal, crate::specs::Gestures::acted_in_setup, crate::specs::Gestures::acted_in_factory))]
pub fn act(core: Core, all: &[u8; 256], paddle: u8, gesture: Option<Gesture>) -> Effect
    ensures { result ≡ acted all.now paddle gesture core }
{
    let Some(gesture) = gesture else {
        return core.unwritten();
    };
    match (core.mode, gesture) {
        (Mode::Normal, Gesture::Taps(taps)) => taps_in_normal(core, all, paddle, taps),
        (Mode::Setup, Gesture::Taps(taps)) => taps_in_setup(core, taps),
        (Mode::Factory, Gesture::Taps(taps)) => taps_in_factory(core, all, paddle, taps),
        (Mode::Setup, _) => core.unwritten(),
        (_, Gesture::Hold) => holding(core, all, paddle).unwritten(),
        (_, Gesture::Release) => core.stopping(paddle).unwritten(),
    }
}

// Normal: one tap and two act by the action table, five open Setup.
#[tactic(auto, unfolding(crate::specs::Gestures::taps_in_normal))]
fn taps_in_normal(core: Core, all: &[u8; 256], paddle: u8, taps: u8) -> Effect
    ensures { result ≡ taps_in_normal all.now paddle taps core }
{
    match taps {
        1 | 2 => doing(core, all, paddle, places::action_of(all, paddle, taps)).unwritten(),
        5 => core.opened(),
        _ => core.unwritten(),
    }
}

// Setup: two taps leave it, ten set the factory values.
#[tactic(auto, unfolding(crate::specs::Gestures::taps_in_setup))]
fn taps_in_setup(core: Core, taps: u8) -> Effect
    ensures { result ≡ taps_in_setup taps core }
{
    match taps {
        2 => core.entering(Mode::Normal).unwritten(),
        10 => Effect {
            core: core.entering(Mode::Factory),
            write: Write::Factory,
        },
        _ => core.unwritten(),
    }
}

// Factory Default: one tap acts as in Normal, two leave it.
#[tactic(auto, unfolding(crate::specs::Gestures::taps_in_factory))]
fn taps_in_factory(core: Core, all: &[u8; 256], paddle: u8, taps: u8) -> Effect
    ensures { result ≡ taps_in_factory all.now paddle taps core }
{
    match taps {
        1 => doing(core, all, paddle, places::action_of(all, paddle, 1)).unwritten(),
        2 => core.entering(Mode::Normal).unwritten(),
        _ => core.unwritten(),
    }
}

#[tactic(auto, unfolding(crate::specs::Gestures::by_action))]
fn doing(core: Core, all: &[u8; 256], paddle: u8, action: Action) -> Core
    ensures { result ≡ by_action all.now paddle action core }
{
    core.setting(all, paddle, action.level, action.rate)
}

// A Hold fades to full or off at the default rate, where the load can dim.
#[tactic(auto, unfolding(crate::specs::Gestures::holding))]
fn holding(core: Core, all: &[u8; 256], paddle: u8) -> Core
    ensures { result ≡ holding all.now paddle core }
{
    let options = Options::from(places::dimming(all));
    if options.capable {
        return core.setting(all, paddle, far(paddle), 255);
    }
    core
}

// The level at the paddle's end: 100 for the top, 0 for the bottom.
#[tactic(auto, unfolding(crate::specs::Gestures::far))]
fn far(paddle: u8) -> u8
    ensures { result ≡ far paddle }
{
    if model::top(paddle) {
        return 100;
    }
    0
}
