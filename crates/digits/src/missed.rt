ghost use Rattle.std.specs.Prelude.{◌≡◌};
ghost use Rattle.digits.specs.Missed.{number};

// The question that a call's input misses.
#[derive(Clone, Copy, PartialEq, Eq)]
pub enum Missed {
    // 1: a scalar has a byte, and no more than the limits allow.
    BadScalar,
    // 2: a window is odd, 1 to 31.
    BadWindow,
    // 3: a buffer has room for all that may be written.
    NoRoom,
    // 4: a limit of slots is at most 31.
    BadLimit,
    // 12: each digit to be packed is -1, 0 or 1, and no byte to be unpacked is above 8.
    BadColumn,
    // 15: a size is 1 to 528 bits.
    BadSize,
}

impl Missed {
    // Its number.
    pub fn number(self) -> u32
        ensures { result ≡ number self }
    {
        match self {
            Missed::BadScalar => 1,
            Missed::BadWindow => 2,
            Missed::NoRoom => 3,
            Missed::BadLimit => 4,
            Missed::BadColumn => 12,
            Missed::BadSize => 15,
        }
    }
}
