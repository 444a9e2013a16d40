//! The orders one by one. An illegal one changes nothing. `at` is the address of the order: only orders with another event than Ran read and change
//! the program's own next address.

ghost use Rattle.std.specs.Prelude.{◌≡◌, ◌<◌, ◌^◌, Some};
ghost use Rattle.g_order.specs.Coding.{fields};
ghost use Rattle.g_order.specs.declared.functions.Function.TheVariants as function;
ghost use Rattle.g_mill.specs.OrderReplies.{Does, DoesQuick};
ghost use Rattle.g_mill.specs.Effect.{effect, shifted};
ghost use Rattle.g_mill.specs.Machine.{going_to, operands};

use crate::operations::{is_taken, made, overflow_behind};
use crate::program::{ADDRESSES, following};
use crate::step::PlainOutcome;
use crate::{Event, Program};
use g_order::{Condition, Operation, Order};
use g_word::Word;

impl Program {
    /// The accumulator becomes what the operation makes of it and the word at the address.
    #[inline(always)]
    pub(crate) fn load_word(
        &mut self,
        at: u32,
        operation: Operation,
        x: u32,
        m: u32,
        n: u32,
    ) -> PlainOutcome
        requires at { at < 2 ^ 15 }
        requires x { x < 8 }
        requires m { m < 4 }
        requires n { n < 2 ^ 15 }
        ensures { DoesQuick result at self.old self.new
            (effect (function.Load operation) (going_to self.old at) (operands x m n)) }
    {
        let Some(operand) = self.operand(m, n) else {
            return PlainOutcome::Illegal;
        };
        let (word, overflow) = made(operation, self.accumulator(x), operand);
        self.put_accumulator(x, word, overflow);
        PlainOutcome::Ran
    }

    /// The word at the address becomes what the operation makes of it and the accumulator.
    #[inline(always)]
    pub(crate) fn store(
        &mut self,
        at: u32,
        operation: Operation,
        x: u32,
        m: u32,
        n: u32,
    ) -> PlainOutcome
        requires at { at < 2 ^ 15 }
        requires x { x < 8 }
        requires m { m < 4 }
        requires n { n < 2 ^ 15 }
        ensures { DoesQuick result at self.old self.new
            (effect (function.Store operation) (going_to self.old at) (operands x m n)) }
    {
        let address = self.address(m, n);
        let Some(old) = self.operand_at(address) else {
            return PlainOutcome::Illegal;
        };
        let (word, overflow) = made(operation, old, self.accumulator(x));
        self.put(address, word, overflow);
        PlainOutcome::Ran
    }

    /// The accumulator becomes what the operation makes of it and the address itself.
    #[inline(always)]
    pub(crate) fn load_number(
        &mut self,
        at: u32,
        operation: Operation,
        x: u32,
        m: u32,
        n: u32,
    ) -> PlainOutcome
        requires at { at < 2 ^ 15 }
        requires x { x < 8 }
        requires m { m < 4 }
        requires n { n < 2 ^ 15 }
        ensures { DoesQuick result at self.old self.new
            (effect (function.LoadNumber operation) (going_to self.old at) (operands x m n)) }
    {
        let number = Word::from(self.address(m, n) as u16);
        let (word, overflow) = made(operation, self.accumulator(x), number);
        self.put_accumulator(x, word, overflow);
        PlainOutcome::Ran
    }

    /// The accumulator becomes a character of the word at the address.
    #[inline(never)]
    pub(crate) fn load_character(&mut self, at: u32, x: u32, m: u32, n: u32) -> PlainOutcome
        requires at { at < 2 ^ 15 }
        requires x { x < 8 }
        requires m { m < 4 }
        requires n { n < 2 ^ 15 }
        ensures { DoesQuick result at self.old self.new
            (effect function.LoadCharacter (going_to self.old at) (operands x m n)) }
    {
        let Some(operand) = self.operand(m, n) else {
            return PlainOutcome::Illegal;
        };
        let character = operand.char_at(self.place(m));
        self.put_accumulator(x, Word::from(u16::from(character)), false);
        PlainOutcome::Ran
    }

    /// The word at the address becomes 0.
    #[inline(always)]
    pub(crate) fn store_zero(&mut self, at: u32, m: u32, n: u32) -> PlainOutcome
        requires at { at < 2 ^ 15 }
        requires m { m < 4 }
        requires n { n < 2 ^ 15 }
        ensures { DoesQuick result at self.old self.new
            (effect function.StoreZero (going_to self.old at) (operands 0 m n)) }
    {
        let address = self.address(m, n);
        let Some(_old) = self.operand_at(address) else {
            return PlainOutcome::Illegal;
        };
        self.put(address, Word::ZERO, false);
        PlainOutcome::Ran
    }

    /// A character of the word at the address becomes the last of the accumulator.
    #[inline(never)]
    pub(crate) fn deposit_character(&mut self, at: u32, x: u32, m: u32, n: u32) -> PlainOutcome
        requires at { at < 2 ^ 15 }
        requires x { x < 8 }
        requires m { m < 4 }
        requires n { n < 2 ^ 15 }
        ensures { DoesQuick result at self.old self.new
            (effect function.DepositCharacter (going_to self.old at) (operands x m n)) }
    {
        let address = self.address(m, n);
        let Some(old) = self.operand_at(address) else {
            return PlainOutcome::Illegal;
        };
        let character = (self.accumulator(x).value() % 64) as u8;
        self.put(address, old.with_char(self.place(m), character), false);
        PlainOutcome::Ran
    }

    /// The accumulator and the next one become the product of the accumulator and the word at the address.
    #[inline(never)]
    pub(crate) fn multiply(&mut self, at: u32, x: u32, m: u32, n: u32) -> PlainOutcome
        requires at { at < 2 ^ 15 }
        requires x { x < 8 }
        requires m { m < 4 }
        requires n { n < 2 ^ 15 }
        ensures { DoesQuick result at self.old self.new
            (effect function.Multiply (going_to self.old at) (operands x m n)) }
    {
        let Some(operand) = self.operand(m, n) else {
            return PlainOutcome::Illegal;
        };
        let (high, low, overflow) = self.accumulator(x).mul_parts(operand);
        self.put_accumulator(x, high, false);
        self.put_accumulator((x + 1) % 8, low, overflow);
        PlainOutcome::Ran
    }

    /// Jumps to the address if the condition holds.
    #[inline(always)]
    pub(crate) fn branch(&mut self, at: u32, condition: Condition, x: u32, n: u32) -> PlainOutcome
        requires at { at < 2 ^ 15 }
        requires x { x < 8 }
        requires n { n < 2 ^ 15 }
        ensures { DoesQuick result at self.old self.new
            (effect (function.Branch condition) (going_to self.old at) (operands x 0 n)) }
    {
        let overflow = self.overflow();
        let taken = is_taken(condition, self.accumulator(x), overflow);
        self.set_overflow(overflow_behind(condition, overflow));
        if taken {
            PlainOutcome::Jumped(n)
        } else {
            PlainOutcome::Passed(n)
        }
    }

    /// Jumps to a routine, and stores the address after the order in the accumulator.
    #[inline(always)]
    pub(crate) fn call(&mut self, at: u32, x: u32, n: u32) -> PlainOutcome
        requires at { at < 2 ^ 15 }
        requires x { x < 8 }
        requires n { n < 2 ^ 15 }
        ensures { DoesQuick result at self.old self.new
            (effect function.Call (going_to self.old at) (operands x 0 n)) }
    {
        let back = following(at);
        self.put_accumulator(x, Word::from(back as u16), false);
        PlainOutcome::Jumped(n)
    }

    /// Returns by the address in the accumulator.
    #[inline(always)]
    pub(crate) fn exit(&mut self, at: u32, x: u32, n: u32) -> PlainOutcome
        requires at { at < 2 ^ 15 }
        requires x { x < 8 }
        requires n { n < 2 ^ 15 }
        ensures { DoesQuick result at self.old self.new
            (effect function.Exit (going_to self.old at) (operands x 0 n)) }
    {
        let back = self.low_bits(x);
        PlainOutcome::Jumped((back + n) % ADDRESSES)
    }

    /// Shifts the accumulator; the address says how.
    #[inline(never)]
    pub(crate) fn shift(&mut self, at: u32, left: bool, x: u32, m: u32, n: u32) -> PlainOutcome
        requires at { at < 2 ^ 15 }
        requires x { x < 8 }
        requires m { m < 4 }
        requires n { n < 2 ^ 15 }
        ensures { DoesQuick result at self.old self.new
            (shifted left (going_to self.old at) (operands x m n)) }
    {
        let address = self.address(m, n);
        let places = address % 0x400;
        let old = self.accumulator(x);
        let word = match address % 0x1000 / 0x400 {
            0 => old.rotate(left, places),
            1 => old.shift(left, places),
            _ => return PlainOutcome::Illegal,
        };
        self.put_accumulator(x, word, false);
        PlainOutcome::Ran
    }

    /// Copies words from the address in the accumulator to the address in the next one.
    #[inline(never)]
    pub(crate) fn move_words(&mut self, at: u32, x: u32, m: u32, n: u32) -> PlainOutcome
        requires at { at < 2 ^ 15 }
        requires x { x < 8 }
        requires m { m < 4 }
        requires n { n < 2 ^ 15 }
        ensures { DoesQuick result at self.old self.new
            (effect function.Move (going_to self.old at) (operands x m n)) }
    {
        let low = self.address(m, n) % 512;
        let count = if low == 0 { 512 } else { low };
        let from = self.low_bits(x);
        let to = self.low_bits((x + 1) % 8);
        let size = self.size();
        if from + count > size || to + count > size {
            return PlainOutcome::Illegal;
        }
        self.copy_words(from, to, count);
        PlainOutcome::Ran
    }

    /// Requests a transfer with the control area at the address.
    pub(crate) fn transfer(&mut self, order: &Order) -> Event
        ensures { Does (Some result) self.old self.new
            (effect function.Transfer self.old (fields order.now)) }
    {
        let area = self.address(u32::from(order.m), u32::from(order.n));
        self.go_on();
        Event::Peri { area: area as u16 }
    }

    /// Halts with the text of the area at the address.
    #[inline(never)]
    pub(crate) fn halt(&mut self, order: &Order) -> Option<Event>
        ensures { Does result self.old self.new
            (effect function.Halt self.old (fields order.now)) }
    {
        self.take_text(order).map(Event::Halted)
    }

    /// Displays the text of the area at the address.
    #[inline(never)]
    pub(crate) fn display(&mut self, order: &Order) -> Option<Event>
        ensures { Does result self.old self.new
            (effect function.Display self.old (fields order.now)) }
    {
        self.take_text(order).map(Event::Displayed)
    }

    /// Deletes the program with the text of the area at the address.
    #[inline(never)]
    pub(crate) fn delete(&mut self, order: &Order) -> Option<Event>
        ensures { Does result self.old self.new
            (effect function.Delete self.old (fields order.now)) }
    {
        self.take_text(order).map(Event::Deleted)
    }
}
