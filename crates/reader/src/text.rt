ghost use Rattle.std.specs.Prelude.{◌≡◌, ◌≤◌, length};
ghost use Rattle.reader.specs.declared.text.TheConstants.{ROOM};

// The bytes of a text, and of what stands before it.
const ROOM: usize = 64;

// A text at the end of an array: its bytes from `at` on.
#[derive(Clone, Copy)]
pub struct Text {
    pub bytes: [u8; ROOM],
    pub at: usize,
    ghost within: { at ≤ ROOM },
}

impl Text {
    ghost use Rattle.std.specs.Prelude.{[], ◌∷◌};
    ghost use Rattle.sheet.specs.Numeral.{numeral};
    ghost use Rattle.reader.specs.Text.{Before, Holds};

    // No bytes.
    pub(crate) fn empty() -> Text
        ensures { (result.at ≡ ROOM) × Holds result [] }
    {
        Text {
            bytes: [0u8; ROOM],
            at: ROOM,
        }
    }

    // A byte in front.
    pub(crate) fn with(mut self, byte: u8) -> Text
        requires { 1 ≤ self.at }
        ensures { Before self (byte ∷ []) result }
    {
        self.at -= 1;
        self.bytes[self.at] = byte;
        self
    }

    // A decimal in front.
    pub(crate) fn with_decimal(mut self, n: u64) -> Text
        requires { 20 ≤ self.at }
        ensures { Before self (numeral 10 n) result × (length (numeral 10 n) ≤ 20) }
    {
        let mut rest = n;
        // No `for`: how many figures there are is known at the last one.
        while 10 <= rest {
            self = self.with(b'0' + (rest % 10) as u8);
            rest /= 10;
        }
        self.with(b'0' + rest as u8)
    }
}
