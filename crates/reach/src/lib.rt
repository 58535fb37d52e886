// Whom a packet reaches, and which commands it may bring there: the checks 9, 10 and 13.
#![tactic(auto)]

ghost use Rattle.std.specs.Prelude.{◌≡◌};
ghost use Rattle.reach.specs.Reach.{heard, directly, target_of, reached, to_us, direct_to, by_link, permitted, component_of};

use packet::Header;
use vault::Mode;
use verbs::Verb;

// Whom a packet reaches: nobody here, every unit, this unit, or one of the receive components.
// Stays as it is: `permitted` answers for Nobody too, and may not take a narrower type.
#[derive(Clone, Copy)]
pub enum Target {
    Nobody,
    Everyone,
    Us,
    Component(u8),
}

#[tactic(auto, unfolding(crate::specs::Reach::heard))]
pub fn heard(all: &[u8; 256], network: u8) -> bool
    ensures { result ≡ heard all.now network }
{
    network == 0 || network == places::network(all)
}

#[tactic(auto, unfolding(crate::specs::Reach::target_of))]
pub fn target_of(all: &[u8; 256], header: Header) -> Target
    ensures { result ≡ target_of all.now header }
{
    if header.link {
        registers::find(all, header.destination).map_or(Target::Nobody, Target::Component)
    } else {
        directly(all, header.destination)
    }
}

#[tactic(auto, unfolding(crate::specs::Reach::directly))]
fn directly(all: &[u8; 256], destination: u8) -> Target
    ensures { result ≡ directly all.now destination }
{
    if destination == 0 {
        return Target::Everyone;
    }
    if destination == places::unit(all) {
        return Target::Us;
    }
    Target::Nobody
}

#[tactic(auto, unfolding(crate::specs::Reach::permitted, vault::specs::Vault::in_setup))]
pub fn permitted(verb: Verb, target: Target, mode: Mode, source: u8, capable: bool) -> bool
    ensures { result ≡ permitted verb target mode source capable }
{
    match verb {
        Verb::Open => target.to_us() && mode == Mode::Normal,
        Verb::Close => target.direct() && mode == Mode::Setup,
        Verb::Set => target.to_us() && mode == Mode::Setup,
        Verb::Get | Verb::Report => target.to_us() && 0 < source,
        Verb::Activate | Verb::Deactivate | Verb::Store => target.by_link(),
        Verb::FadeStart => capable,
        Verb::Goto | Verb::FadeStop | Verb::Blink => true,
        Verb::Unlisted => false,
    }
}

impl Target {
    pub fn reached(self) -> bool
        ensures { result ≡ reached self }
    {
        !matches!(self, Target::Nobody)
    }

    fn to_us(self) -> bool
        ensures { result ≡ to_us self }
    {
        matches!(self, Target::Us)
    }

    fn direct(self) -> bool
        ensures { result ≡ direct_to self }
    {
        matches!(self, Target::Everyone | Target::Us)
    }

    fn by_link(self) -> bool
        ensures { result ≡ by_link self }
    {
        matches!(self, Target::Component(_))
    }

    // The component that a link packet reaches. Stays as it is: of the others it answers 0, and what is permitted never asks them.
    pub fn component(self) -> u8
        ensures { result ≡ component_of self }
    {
        match self {
            Target::Component(i) => i,
            _ => 0,
        }
    }
}
