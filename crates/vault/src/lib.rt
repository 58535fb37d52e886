// The three modes, also as numbers, the network password, and the comparison of a guess with it.
#![tactic(auto, unfolding(crate::specs::Vault::mode_of, crate::specs::Vault::mode_number, crate::specs::Vault::matches))]

ghost use Rattle.std.specs.Prelude.{◌≡◌};
ghost use Rattle.vault.specs.Vault.{mode_of, mode_number, matches};

// `Factory` is Factory Default.
#[derive(Clone, Copy, Debug, PartialEq, Eq)]
pub enum Mode {
    Normal = 0,
    Setup = 1,
    Factory = 2,
}

impl From<u8> for Mode {
    ghost from_gives = { λ number mode. mode ≡ mode_of number };

    fn from(number: u8) -> Mode {
        match number {
            1 => Mode::Setup,
            2 => Mode::Factory,
            _ => Mode::Normal,
        }
    }
}

impl From<Mode> for u8 {
    ghost from_gives = { λ mode number. number ≡ mode_number mode };

    fn from(mode: Mode) -> u8 {
        mode as u8
    }
}

// Registers 0x02 and 0x03. It has no Debug: a password is not printed.
#[derive(Clone, Copy)]
pub struct Password(pub u8, pub u8);

impl Password {
    // Both bytes are compared, whatever the first one says.
    // Stays as it is: a derived `==` may stop at the first byte.
    pub fn matches(self, guess: Password) -> bool
        ensures { result ≡ matches self guess }
    {
        let first = self.0 == guess.0;
        let second = self.1 == guess.1;
        first & second
    }
}
