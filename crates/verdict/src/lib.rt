// Whether a packet's order is granted, and what of the password a reading is handed.
#![tactic(auto)]

ghost use Rattle.std.specs.Prelude.{◌≡◌};
ghost use Rattle.verdict.specs.Code.{verdict_or, verdict_of, seen_by};

use judge::{Denied, Order};
use vault::{Mode, Password};

// An order stays what it is, but a guess at another password is denied.
#[tactic(auto, unfolding(crate::specs::Code::verdict_of))]
pub fn verdict_of(order: Result<Order, Denied>, password: Password) -> Result<Order, Denied>
    ensures { result ≡ verdict_of order password }
{
    verdict_or(order, Denied::Password, password)
}

// The same, however it is said why an order is refused, by a number for one: `wrong` is said of a wrong guess.
#[tactic(auto, unfolding(crate::specs::Code::verdict_or, crate::specs::Code::verdict_on))]
pub fn verdict_or<E: Copy>(
    order: Result<Order, E>,
    wrong: E,
    password: Password,
) -> Result<Order, E>
    ensures { result ≡ verdict_or order wrong password }
{
    match order? {
        Order::Guess(guess) if !password.matches(guess) => Err(wrong),
        granted => Ok(granted),
    }
}

#[tactic(auto, unfolding(crate::specs::Code::seen_by))]
pub fn seen_by(mode: Mode, password: Password) -> Option<Password>
    ensures { result ≡ seen_by mode password }
{
    (mode == Mode::Setup).then_some(password)
}
