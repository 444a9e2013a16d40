//! Encoding and decoding of orders as words.

ghost use Rattle.std.specs.Prelude.{◌≡◌, ◌<◌, ◌^◌, ◌/◌, ◌%◌, Some, None, true, false, MatchOption, MatchResult, IsOkAnd, IfSome, IfOk, IfErr, IsTrue};
ghost use Rattle.g_order.specs.Order.{Fields, are_operands, fields_of, is_branch, is_order, decoded, word_of};
ghost use Rattle.g_order.specs.Coding.{fields};
ghost use Rattle.g_order.specs.Table.{function_of};

use crate::functions::{Function, function_at, function_of};
use crate::orders::{Order, is_branch};
use g_word::Word;
use thiserror::Error;

/// No row of the table has this word.
#[derive(Clone, Copy, Debug, PartialEq, Eq, Error)]
#[error("no order has this word")]
pub struct Illegal(pub Word);

/// The order of a word.
pub fn decode(word: Word) -> Result<Order, Illegal>
    ensures value { MatchResult result (λ o. decoded word ≡ Some (fields o)) (λ _. decoded word ≡ None) }
    ensures refused { IfErr result (λ e. e ≡ record { 0 = word }) }
    ensures written { IfOk result (λ o. word_of (fields o) ≡ word) }
    ensures found { (o : Fields) → IsTrue (is_order o.x o.f o.m o.n) → word_of o ≡ word → IsOkAnd result (λ r. fields r ≡ o) }
{
    read(word).ok_or(Illegal(word))
}

/// The order of a word, if it has one.
fn read(word: Word) -> Option<Order>
    ensures { MatchOption result (decoded word ≡ None) (λ o. decoded word ≡ Some (fields o)) }
{
    match read_order(word) {
        Some((_function, order)) => Some(order),
        None => None,
    }
}

/// The function and the order of a word, if it has one. The table is searched once.
#[inline(always)]
pub fn read_order(word: Word) -> Option<(Function, Order)>
    ensures order { MatchOption result (decoded word ≡ None) (λ r. decoded word ≡ Some (fields r.1)) }
    ensures function { IfSome result (λ r. function_of r.1.f r.1.x ≡ Some r.0) }
{
    if has_branch(word) {
        read_branch(word)
    } else {
        read_plain(word)
    }
}

/// Whether a word has the function number of a branch.
#[inline(always)]
fn has_branch(word: Word) -> bool
    ensures { result ≡ is_branch (word / 2 ^ 14 % 2 ^ 7) }
{
    is_branch(((word.value() >> 14) % 0x80) as u8)
}

/// `read_order` for a word with the function number of a branch, whose order has no modifier.
#[inline(always)]
fn read_branch(word: Word) -> Option<(Function, Order)>
    requires { is_branch (word / 2 ^ 14 % 2 ^ 7) ≡ true }
    ensures order { MatchOption result (decoded word ≡ None) (λ r. decoded word ≡ Some (fields r.1)) }
    ensures function { IfSome result (λ r. function_of r.1.f r.1.x ≡ Some r.0) }
{
    let (x, f, n) = split_branch(word);
    match function_of(u32::from(f), u32::from(x)) {
        Some(function) => Some((function, Order { x, f, m: 0, n })),
        None => None,
    }
}

/// `read_order` for any other word.
#[inline(always)]
fn read_plain(word: Word) -> Option<(Function, Order)>
    requires { is_branch (word / 2 ^ 14 % 2 ^ 7) ≡ false }
    ensures order { MatchOption result (decoded word ≡ None) (λ r. decoded word ≡ Some (fields r.1)) }
    ensures function { IfSome result (λ r. function_of r.1.f r.1.x ≡ Some r.0) }
{
    let (x, f, m, n) = split_plain(word);
    let function = function_of(u32::from(f), u32::from(x))?;
    Some((function, Order { x, f, m, n }))
}

/// X, F and N of a word with the function number of a branch, whether an order has them or not.
#[inline(always)]
fn split_branch(word: Word) -> (u8, u8, u16)
    requires { is_branch (word / 2 ^ 14 % 2 ^ 7) ≡ true }
    ensures fields { fields_of word ≡ record { x = result.0; f = result.1; m = 0; n = result.2 } }
    ensures x { result.0 < 8 }
    ensures n { result.2 < 2 ^ 15 }
    ensures operands { are_operands result.1 0 result.2 ≡ true }
{
    let bits = word.value();
    let f = ((bits >> 15) % 0x40) as u8 * 2;
    ((bits >> 21) as u8, f, (bits % 0x8000) as u16)
}

/// X, F, M and N of any other word, whether an order has them or not.
#[inline(always)]
fn split_plain(word: Word) -> (u8, u8, u8, u16)
    requires { is_branch (word / 2 ^ 14 % 2 ^ 7) ≡ false }
    ensures fields { fields_of word ≡ record { x = result.0; f = result.1; m = result.2; n = result.3 } }
    ensures x { result.0 < 8 }
    ensures m { result.2 < 4 }
    ensures n { result.3 < 2 ^ 12 }
    ensures operands { are_operands result.1 result.2 result.3 ≡ true }
{
    let bits = word.value();
    let f = ((bits >> 14) % 0x80) as u8;
    let m = ((bits >> 12) % 4) as u8;
    ((bits >> 21) as u8, f, m, (bits % 0x1000) as u16)
}

/// X of a word.
#[inline(always)]
pub fn accumulator_in(word: Word) -> u32
    ensures value { result ≡ (fields_of word).x }
    ensures small { result < 8 }
{
    word.value() >> 21
}

/// What a word does, if it has an order.
#[inline(always)]
pub fn function_in(word: Word) -> Option<Function>
    ensures { result ≡ function_of (fields_of word).f (fields_of word).x }
{
    let bits = word.value();
    function_at((bits >> 14) % 0x80, bits >> 21)
}

/// M and N of a word whose function isn't that of a branch.
#[inline(always)]
pub fn plain_operands(word: Word) -> (u32, u32)
    requires { is_branch (fields_of word).f ≡ false }
    ensures m { result.0 ≡ (fields_of word).m }
    ensures n { result.1 ≡ (fields_of word).n }
    ensures small { (result.0 < 4) × (result.1 < 2 ^ 12) }
{
    let bits = word.value();
    ((bits >> 12) % 4, bits % 0x1000)
}

/// N of a word whose function is that of a branch. It has no M.
#[inline(always)]
pub fn branch_operand(word: Word) -> u32
    requires { is_branch (fields_of word).f ≡ true }
    ensures n { result ≡ (fields_of word).n }
    ensures small { result < 2 ^ 15 }
    ensures no_modifier { (fields_of word).m ≡ 0 }
{
    word.value() % 0x8000
}

/// The word of an order.
pub fn encode(order: &Order) -> Word
    ensures value { result ≡ word_of (fields order.now) }
    ensures read { decoded result ≡ Some (fields order.now) }
{
    let number = (u32::from(order.x) << 21) + (u32::from(order.f) << 14);
    let bits = number + (u32::from(order.m) << 12) + u32::from(order.n);
    match Word::new(bits) {
        Some(word) => word,
        None => unreachable!(),
    }
}
