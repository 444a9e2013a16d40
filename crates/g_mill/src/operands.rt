//! The operands of an order by its fields: its address, the word there, the position of a character, a text.

ghost use Rattle.std.specs.Prelude.{◌≡◌, ◌+◌, ◌<◌, ◌≤◌, ◌^◌, ◌%◌, length};
ghost use Rattle.std.specs.List.{range_with_len};
ghost use Rattle.g_order.specs.Coding.{fields};
ghost use Rattle.g_mill.specs.Machine as machine;
ghost use Rattle.g_mill.specs.OrderReplies.{TellsText};

use crate::Program;
use crate::event::Text40;
use crate::program::ADDRESSES;
use g_order::Order;
use g_word::Word;

impl Program {
    /// The low 15 bits of an accumulator.
    #[inline(always)]
    pub(crate) fn low_bits(&self, x: u32) -> u32
        requires { x < 8 }
        ensures value { result ≡ machine.word_at self.now x % 2 ^ 15 }
        ensures in_range { result < 2 ^ 15 }
    {
        self.accumulator(x).value() % ADDRESSES
    }

    /// The address of an order.
    #[inline(always)]
    pub(crate) fn address(&self, m: u32, n: u32) -> u32
        requires m { m < 4 }
        requires n { n < 2 ^ 15 }
        ensures value { result ≡ machine.address self.now (machine.operands 0 m n) }
        ensures in_range { result < 2 ^ 15 }
    {
        if m == 0 {
            n
        } else {
            (n + self.low_bits(m)) % ADDRESSES
        }
    }

    /// The word at the address of an order, if the program has it.
    #[inline(always)]
    pub(crate) fn operand(&self, m: u32, n: u32) -> Option<Word>
        requires m { m < 4 }
        requires n { n < 2 ^ 15 }
        ensures { result ≡ machine.operand self.now (machine.operands 0 m n) }
    {
        self.operand_at(self.address(m, n))
    }

    /// The position of the character that an order names.
    pub(crate) fn place(&self, m: u32) -> u8
        requires { m < 4 }
        ensures value { result ≡ machine.place self.now (machine.operands 0 m 0) }
        ensures in_word { result < 4 }
    {
        if m == 0 {
            0
        } else {
            (self.accumulator(m).value() >> 22) as u8
        }
    }

    /// The text that an area of two words names, if the area and the text are in the program.
    pub(crate) fn text(&self, area: u32) -> Option<Text40>
        requires { area < 2 ^ 15 }
        ensures { result ≡ machine.text_at self.now area }
    {
        let count = self.operand_at(area)?;
        let from = self.operand_at(area + 1)?;
        self.text_of(count.value(), from.value())
    }

    /// The text of `count` characters that begin at an address, if the program has them.
    fn text_of(&self, count: u32, from: u32) -> Option<Text40>
        ensures { result ≡ machine.text_of self.now count from }
    {
        if count > 40 {
            return None;
        }
        if count == 0 {
            return Some(Text40::new());
        }
        if u64::from(from) + u64::from(count.div_ceil(4)) > u64::from(self.size()) {
            return None;
        }
        Some(Text40::of(self.characters(from as u16, count as u8)))
    }

    /// The text of an order, with the program continuing after it; without a text nothing changes.
    pub(crate) fn take_text(&mut self, order: &Order) -> Option<Text40>
        ensures { TellsText result self.old self.new
            (machine.text_at self.old (machine.address self.old (fields order.now))) }
    {
        let area = self.address(u32::from(order.m), u32::from(order.n));
        let text = self.text(area)?;
        self.go_on();
        Some(text)
    }
}
