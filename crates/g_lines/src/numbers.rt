//! Numbers in texts: decimal, without a sign and without leading zeros.
ghost use Rattle.std.specs.Fmt.{decimal};
ghost use Rattle.std.specs.Prelude.{◌≡◌, ◌++◌, ◌↔◌, IsTrue, OnErr, OnOk};
ghost use Rattle.g_lines.specs.Numbers.{BeginsPlainly, number_read};

use g_base::NoMemory;
use g_name::Text;
use itoa::Buffer;
use std::str;

/// The number of these digits, from 0 to `most`. None if they aren't digits, or have a sign or leading zeros.
pub fn number(digits: &[u8], most: u64) -> Option<u64>
    ensures { result ≡ number_read most digits.now }
{
    if !begins_plainly(digits) {
        return None;
    }
    let Ok(text) = str::from_utf8(digits) else {
        return None;
    };
    let Ok(number) = text.parse::<u64>() else {
        return None;
    };
    if number <= most { Some(number) } else { None }
}

/// Whether the first byte is a digit, and the only byte if it is 0.
pub fn begins_plainly(digits: &[u8]) -> bool
    ensures { IsTrue result ↔ BeginsPlainly digits.now }
{
    match digits {
        [] => false,
        [digit] => digit.is_ascii_digit(),
        [first, _, ..] => b'1' <= *first && *first <= b'9',
    }
}

/// Appends the decimal digits of a number to the text; without memory the text is unchanged.
pub fn push_decimal(text: &mut Text, number: u64) -> Result<(), NoMemory>
    ensures ok { OnOk result (text.new ≡ text.old ++ decimal number) }
    ensures err { OnErr result (text.new ≡ text.old) }
{
    let mut digits = Buffer::new();
    text.extend(digits.format(number).as_bytes())
}
