//! The bytes that represent the 64 characters outside a word.

ghost use Rattle.std.specs.Prelude.{◌≡◌, ◌<◌, ◌≤◌, ◌-◌};
ghost use Rattle.g_word.specs.Characters as characters;

/// The six-bit code of a byte: 0 to 15 for the digits and the bytes after them, 16 to 31 for the space and the bytes after it, 32 to 63 for `@`, the
/// letters and the bytes after them. Small letters count as capitals, and a byte that represents no character counts as `?`.
pub fn code_of(byte: u8) -> u8
    ensures value { result ≡ characters.code_of byte }
    ensures small { result < 64 }
    ensures returns { 0x20 ≤ byte → byte < 0x60 → characters.byte_of result ≡ byte }
{
    match byte {
        0x20..=0x2f => byte - 0x10,
        0x30..=0x3f => byte - 0x30,
        0x40..=0x5f => byte - 0x20,
        0x60..=0x7e => byte - 0x40,
        _ => 15,
    }
}

/// The byte, 0x20 to 0x5f, of a six-bit code.
pub fn byte_of(code: u8) -> u8
    requires { code < 64 }
    ensures value { result ≡ characters.byte_of code }
    ensures low { 0x20 ≤ result }
    ensures high { result < 0x60 }
    ensures returns { characters.code_of result ≡ code }
{
    match code {
        0..16 => code + 0x30,
        16..32 => code + 0x10,
        _ => code + 0x20,
    }
}
