//! A word of 24 bits with its arithmetic, its shifts and its characters.

ghost use Rattle.std.specs.Prelude.{◌≡◌, ℕ, ◌+◌, ◌-◌, ◌*◌, ◌%◌, ◌^◌, ◌<◌, ◌≤◌, ◌↔◌, ◌==◌, ◌&&◌, ◌+ℤ◌, ◌-ℤ◌, ◌*ℤ◌, pos, unsigned_abs, if◌then◌else◌, IsSome, IfSome, IsTrue, bit_and, bit_or, bit_xor};
ghost use Rattle.std.specs.Int.{int_div_euclid, int_rem_euclid};
ghost use Rattle.g_word.specs.Word.{signed_value, wrapped, is_out_of_range, rotated_left, rotated_right, shifted_left, shifted_right};
ghost use Rattle.g_word.specs.Characters.{character, with_character};

use std::marker::Model;

/// One more than the greatest word.
const MODULUS: u32 = 0x100_0000;

/// The word with the least value, -2^23: only its sign bit is set.
const SIGN: u32 = 0x80_0000;

/// A word of 24 bits in twos complement. Contracts see the number from 0 to 2^24 - 1 of its bits.
#[derive(Clone, Copy, Debug, PartialEq, Eq, Hash)]
pub struct Word {
    bits: u32,
}

impl Model for Word {
    ghost Value = { ℕ };

    ghost view = { λ w. w.bits };

    ghost invariant = { λ w. w.bits < 2 ^ 24 };

    ghost inverse = { λ n. record { bits = n } };
}

impl Word {
    pub const ZERO: Word = Word { bits: 0 };

    /// How many bits a word has.
    pub const WIDTH: u32 = 24;

    /// The word of these bits.
    pub fn new(bits: u32) -> Option<Word>
        ensures fits { IsSome result ↔ (bits < 2 ^ 24) }
        ensures value { IfSome result (λ w. w ≡ bits) }
    {
        if bits < MODULUS {
            Some(Word { bits })
        } else {
            None
        }
    }

    /// The bits as a number without sign.
    pub fn value(self) -> u32
        ensures value { result ≡ self }
        ensures small { result < 2 ^ 24 }
    {
        self.bits
    }

    /// The value of the word in twos complement, -2^23 to 2^23 - 1.
    pub fn signed(self) -> i32
        ensures { result ≡ signed_value self }
    {
        if self.bits < SIGN {
            self.bits as i32
        } else {
            self.bits as i32 - MODULUS as i32
        }
    }

    /// The word of a result, and whether the result is out of range.
    fn keep(number: i32) -> (Word, bool)
        ensures value { result.0 ≡ wrapped number }
        ensures overflow { result.1 ≡ is_out_of_range number }
    {
        let bits = number.rem_euclid(MODULUS as i32) as u32;
        let in_range = -(SIGN as i32)..SIGN as i32;
        (Word { bits }, !in_range.contains(&number))
    }

    /// The sum, and whether it is out of range.
    pub fn add(self, other: Word) -> (Word, bool)
        ensures value { result.0 ≡ wrapped (signed_value self +ℤ signed_value other) }
        ensures overflow { result.1 ≡ is_out_of_range (signed_value self +ℤ signed_value other) }
    {
        Word::keep(self.signed() + other.signed())
    }

    /// The difference, and whether it is out of range.
    pub fn sub(self, other: Word) -> (Word, bool)
        ensures value { result.0 ≡ wrapped (signed_value self -ℤ signed_value other) }
        ensures overflow { result.1 ≡ is_out_of_range (signed_value self -ℤ signed_value other) }
    {
        Word::keep(self.signed() - other.signed())
    }

    /// The negated value, and whether it is out of range, as it is for -2^23.
    pub fn neg(self) -> (Word, bool)
        ensures value { result.0 ≡ wrapped (pos 0 -ℤ signed_value self) }
        ensures overflow { result.1 ≡ is_out_of_range (pos 0 -ℤ signed_value self) }
    {
        Word::keep(-self.signed())
    }

    /// Bit by bit, whether both are set.
    pub fn and(self, other: Word) -> Word
        ensures { result ≡ bit_and self other }
    {
        Word {
            bits: self.bits & other.bits,
        }
    }

    /// Bit by bit, whether at least one of both is set.
    pub fn or(self, other: Word) -> Word
        ensures { result ≡ bit_or self other }
    {
        Word {
            bits: self.bits | other.bits,
        }
    }

    /// Bit by bit, whether the two differ.
    pub fn xor(self, other: Word) -> Word
        ensures { result ≡ bit_xor self other }
    {
        Word {
            bits: self.bits ^ other.bits,
        }
    }

    /// The product in two words: its high part, which is the product divided by 2^23 and rounded down, and its low 23 bits. The flag says whether the
    /// high part is out of range, which happens only for -2^23 times -2^23.
    pub fn mul_parts(self, other: Word) -> (Word, Word, bool)
        ensures high { result.0 ≡ wrapped (int_div_euclid (signed_value self *ℤ signed_value other) (pos (2 ^ 23))) }
        ensures low { result.1 ≡ unsigned_abs (int_rem_euclid (signed_value self *ℤ signed_value other) (pos (2 ^ 23))) }
        ensures overflow { result.2 ≡ ((self == 2 ^ 23) && (other == 2 ^ 23)) }
    {
        let product = i64::from(self.signed()) * i64::from(other.signed());
        let (high, low) = Word::parts(product);
        let overflow = self.bits == SIGN && other.bits == SIGN;
        (high, low, overflow)
    }

    /// A product divided by 2^23 and rounded down, and its low 23 bits.
    fn parts(product: i64) -> (Word, Word)
        ensures high { result.0 ≡ wrapped (int_div_euclid product (pos (2 ^ 23))) }
        ensures low { result.1 ≡ unsigned_abs (int_rem_euclid product (pos (2 ^ 23))) }
    {
        let high = product.div_euclid(i64::from(SIGN));
        let high = high.rem_euclid(i64::from(MODULUS)) as u32;
        let low = product.rem_euclid(i64::from(SIGN)) as u32;
        (Word { bits: high }, Word { bits: low })
    }

    /// The word rotated by this many places: the bits that leave at one end enter at the other.
    pub fn rotate(self, left: bool, places: u32) -> Word
        ensures { result ≡ (if left then rotated_left self places else rotated_right self places) }
    {
        let places = places % Word::WIDTH;
        let up = if left { places } else { Word::WIDTH - places };
        let high = Word::moved_up(self.bits, up);
        let low = self.bits >> (Word::WIDTH - up);
        Word { bits: high + low }
    }

    /// The bits that remain in a word when these are shifted left by at most its width.
    fn moved_up(bits: u32, places: u32) -> u32
        requires in_word { bits < 2 ^ 24 }
        requires at_most_all { places ≤ 24 }
        ensures { result ≡ bits * 2 ^ places % 2 ^ 24 }
    {
        ((u64::from(bits) << places) % u64::from(MODULUS)) as u32
    }

    /// The word shifted by this many places; zeros enter.
    pub fn shift(self, left: bool, places: u32) -> Word
        ensures { result ≡ (if left then shifted_left self places else shifted_right self places) }
    {
        let old = self.bits;
        let bits = if places >= Word::WIDTH {
            0
        } else if left {
            Word::moved_up(old, places)
        } else {
            old >> places
        };
        Word { bits }
    }

    /// The character at a position; position 0 is the most significant.
    pub fn char_at(self, position: u8) -> u8
        requires { position < 4 }
        ensures value { result ≡ character self position }
        ensures small { result < 64 }
    {
        let places = 6 * (3 - u32::from(position));
        ((self.bits >> places) % 64) as u8
    }

    /// The word with the character at a position replaced.
    pub fn with_char(self, position: u8, code: u8) -> Word
        requires in_word { position < 4 }
        requires is_code { code < 64 }
        ensures { result ≡ with_character self position code }
    {
        let places = 6 * (3 - u32::from(position));
        let old = u32::from(self.char_at(position)) << places;
        Word {
            bits: self.bits - old + (u32::from(code) << places),
        }
    }
}

impl From<u16> for Word {
    ghost from_gives = { λ number word. word ≡ number };

    fn from(number: u16) -> Word {
        Word {
            bits: u32::from(number),
        }
    }
}
