// The core of a switch and its password as the caller keeps them: counters and numbers, lent to every event. Here they are read and
// kept, part by part; nothing else knows where a part stands.
//
// counters   0 version, 1 phase, 2 signal, 3 flash: the lamp's. 4 save. 5 left, 6 period: of a motion.
// numbers    0 level, 1 kind of motion, 2 mode, 3 hue of the lamp's signal, 4 last level, 5 target of a fade, 6 and 7 the password.
//
// Motion 0: idle, 1: fading, 2: blinking. Mode 0: Normal, 1: Setup, 2: Factory. Colour 0: black, 1: red, 2: green, 3: orange.
// A number that stands for nothing is read as the first of its list. Stays as it is: these numbers are what the C interface lends.
#![tactic(auto)]

pub mod kinds;
pub mod parts;

// How many there are of each.
pub const COUNTERS: usize = 7;

pub const NUMBERS: usize = 8;
