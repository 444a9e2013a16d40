//! The results of operations, and the tests of branches.

ghost use Rattle.std.specs.Prelude.{◌≡◌};
ghost use Rattle.g_mill.specs.Effect as effect;

use g_order::{Condition, Operation};
use g_word::Word;

/// The word that an operation makes of an old word and an operand, and whether the result is out of range.
#[inline(always)]
pub(crate) fn made(operation: Operation, old: Word, operand: Word) -> (Word, bool)
    ensures value { result.0 ≡ effect.made operation old operand }
    ensures overflow { result.1 ≡ effect.overflows operation old operand }
{
    match operation {
        Operation::Take => (operand, false),
        Operation::Add => old.add(operand),
        Operation::Negate => operand.neg(),
        Operation::Subtract => old.sub(operand),
        Operation::And => (old.and(operand), false),
        Operation::Or => (old.or(operand), false),
        Operation::Differ => (old.xor(operand), false),
    }
}

/// Whether a branch is taken, by the accumulator and overflow.
#[inline(always)]
pub(crate) fn is_taken(condition: Condition, x: Word, overflow: bool) -> bool
    ensures { result ≡ effect.is_taken condition x overflow }
{
    match condition {
        Condition::Zero => x.value() == 0,
        Condition::NotZero => x.value() != 0,
        Condition::NotNegative => x.signed() >= 0,
        Condition::Negative => x.signed() < 0,
        Condition::Always => true,
        Condition::Overflow | Condition::OverflowReset => overflow,
        Condition::NoOverflow | Condition::NoOverflowReset => !overflow,
    }
}

/// Overflow after the test of a branch.
#[inline(always)]
pub(crate) fn overflow_behind(condition: Condition, overflow: bool) -> bool
    ensures { result ≡ effect.overflow_behind condition overflow }
{
    match condition {
        Condition::OverflowReset | Condition::NoOverflowReset => false,
        _ => overflow,
    }
}
