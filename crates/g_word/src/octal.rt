//! A word as eight octal digits, as texts have it (docs/FORMATS.md, "Programs").
ghost use Rattle.std.specs.Prelude.{◌≡◌, ◌+◌, ◌/◌, ◌%◌, ◌<◌};
ghost use Rattle.g_word.specs.Octal.{octal_digits};

use crate::words::Word;

impl Word {
    /// The bytes of the word's eight octal digits, the most significant first.
    #[tactic(auto, unfolding(crate::specs::Octal::octal_digits))]
    pub fn octal(self) -> [u8; 8]
        ensures { result ≡ octal_digits 8 self }
    {
        let number = self.value();
        [
            octal_digit(number, 0o1000_0000),
            octal_digit(number, 0o100_0000),
            octal_digit(number, 0o10_0000),
            octal_digit(number, 0o1_0000),
            octal_digit(number, 0o1000),
            octal_digit(number, 0o100),
            octal_digit(number, 0o10),
            octal_digit(number, 1),
        ]
    }
}

/// The octal digit of a number at this power of eight.
fn octal_digit(number: u32, power: u32) -> u8
    requires { 0 < power }
    ensures { result ≡ 48 + number / power % 8 }
{
    b'0' + (number / power % 8) as u8
}
