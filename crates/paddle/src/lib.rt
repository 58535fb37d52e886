// One paddle: edges in, gestures out; its ticks are run where the paddles' bytes are (panel). Nothing here knows which paddle of the
// switch it is.
#![tactic(auto)]

ghost use Rattle.std.specs.Prelude.{◌≡◌};
ghost use Rattle.paddle.specs.Paddle.{fresh_paddle, down, pressed, released, gesture_up, with_contact, hold_from, ended, ending, tapped, one_tap_more};
ghost use Rattle.paddle.specs.Code.{turn};

// Ticks from the press to Hold.
const HOLD: u8 = 180;
// Ticks from a counted tap to the close of its run, if the paddle is up then.
const GAP: u8 = 180;
// A press of 60 ticks or more leaves at most this much of HOLD.
const TAP: u8 = 120;
// No more taps than this are counted.
const MOST: u8 = 11;

// A paddle has a contact of its own and one of the slave switch.
#[derive(Clone, Copy)]
pub enum Contact {
    Local,
    Slave,
}

// A gesture that a paddle completes at an event; `Taps` with how many.
#[derive(Clone, Copy)]
pub enum Gesture {
    Taps(u8),
    Hold,
    Release,
}

// `hold`: ticks left before Hold. `gap`: ticks left of the gap. `taps`: taps counted in the run.
#[derive(Clone, Copy)]
pub struct Paddle {
    pub local: bool,
    pub slave: bool,
    pub hold: u8,
    pub gap: u8,
    pub taps: u8,
}

// What an event makes of a paddle, and the gesture that it completes, if there is one.
#[derive(Clone, Copy)]
pub struct Turn {
    pub paddle: Paddle,
    pub gesture: Option<Gesture>,
}

impl Paddle {
    // As after a start or a restart.
    pub fn up() -> Paddle
        ensures { result ≡ fresh_paddle }
    {
        Paddle {
            local: false,
            slave: false,
            hold: 0,
            gap: 0,
            taps: 0,
        }
    }

    #[tactic(auto, unfolding(crate::specs::Paddle::down))]
    pub fn down(self) -> bool
        ensures { result ≡ down self }
    {
        self.local | self.slave
    }

    // A press that overlaps another one of the same paddle is part of it.
    #[tactic(auto, unfolding(crate::specs::Paddle::pressed))]
    pub fn press(self, contact: Contact) -> Paddle
        ensures { result ≡ pressed contact self }
    {
        let mut lowered = self.moved(contact, true);
        lowered.hold = self.begun();
        lowered
    }

    // A tap is counted, and Release given, in the edge that lets the paddle go.
    #[tactic(auto, unfolding(crate::specs::Paddle::released, crate::specs::Paddle::gesture_up, crate::specs::Paddle::goes_up))]
    pub fn release(self, contact: Contact) -> Turn
        ensures { result ≡ turn (released contact self) (gesture_up contact self) }
    {
        let lifted = self.moved(contact, false);
        if self.down() & !lifted.down() {
            return lifted.ended();
        }
        Turn {
            paddle: lifted,
            gesture: None,
        }
    }

    #[tactic(auto, unfolding(crate::specs::Paddle::with_contact))]
    fn moved(mut self, contact: Contact, down: bool) -> Paddle
        ensures { result ≡ with_contact contact down self }
    {
        match contact {
            Contact::Local => {
                self.local = down;
                self
            }
            Contact::Slave => {
                self.slave = down;
                self
            }
        }
    }

    // The ticks left before Hold once a contact is pressed.
    #[tactic(auto, unfolding(crate::specs::Paddle::hold_from))]
    fn begun(self) -> u8
        ensures { result ≡ hold_from self }
    {
        if self.down() {
            return self.hold;
        }
        HOLD
    }

    // The press that ends here was a Hold, a tap, or too short.
    #[tactic(auto, unfolding(crate::specs::Paddle::ended, crate::specs::Paddle::ending))]
    fn ended(self) -> Turn
        ensures { result ≡ turn (ended self) (ending self) }
    {
        let hold = self.hold;
        if hold == 0 {
            return Turn {
                paddle: self,
                gesture: Some(Gesture::Release),
            };
        }
        if hold <= TAP {
            return Turn {
                paddle: self.tapped(),
                gesture: None,
            };
        }
        Turn {
            paddle: self,
            gesture: None,
        }
    }

    // A tap is counted, and the gap begins again.
    #[tactic(auto, unfolding(crate::specs::Paddle::tapped))]
    fn tapped(mut self) -> Paddle
        ensures { result ≡ tapped self }
    {
        self.gap = GAP;
        self.taps = counted(self.taps);
        self
    }
}

// Stays as it is: `min` would take more than eleven taps down to eleven, and one_tap_more leaves them.
#[tactic(auto, unfolding(crate::specs::Paddle::one_tap_more))]
fn counted(taps: u8) -> u8
    ensures { result ≡ one_tap_more taps }
{
    if taps < MOST {
        return taps + 1;
    }
    taps
}
