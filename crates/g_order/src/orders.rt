//! An order with its fields.

ghost use Rattle.std.specs.Prelude.{◌≡◌, ◌↔◌, IsTrue, IsSome, IfSome, Some, Option};
ghost use Rattle.g_order.specs.Order.{is_order, is_branch};
ghost use Rattle.g_order.specs.Table as table;

use crate::functions::{Function, function_of};

/// An order, by the fields of its word. The fields store what the word has, including fields that the order doesn't use.
#[derive(Clone, Copy, PartialEq, Eq)]
pub struct Order {
    /// The accumulator, 0 to 7.
    pub x: u8,
    /// The function number, below 128. A branch has an even one.
    pub f: u8,
    /// The modifier, 0 to 3. A branch has 0.
    pub m: u8,
    /// The address or number, below 2^12, and in a branch below 2^15.
    pub n: u16,
    pub ghost in_table: { IsTrue (is_order x f m n) },
}

impl Order {
    /// The order with these fields, or `None` if no row of the table matches them.
    pub fn new(x: u8, f: u8, m: u8, n: u16) -> Option<Order>
        ensures valid { IsSome result ↔ IsTrue (is_order x f m n) }
        ensures x { IfSome result (λ o. o.x ≡ x) }
        ensures f { IfSome result (λ o. o.f ≡ f) }
        ensures m { IfSome result (λ o. o.m ≡ m) }
        ensures n { IfSome result (λ o. o.n ≡ n) }
    {
        let fits = if is_branch(f) {
            m == 0 && n < 0x8000
        } else {
            m < 4 && n < 0x1000
        };
        if x < 8 && fits && function_of(u32::from(f), u32::from(x)).is_some() {
            Some(Order { x, f, m, n })
        } else {
            None
        }
    }

    /// What the order does.
    pub fn function(&self) -> Function
        ensures { table.function_of self.now.f self.now.x ≡ Some result }
    {
        match function_of(u32::from(self.f), u32::from(self.x)) {
            Some(function) => function,
            None => unreachable!(),
        }
    }
}

/// Whether orders with this F are branches, whose N has 15 bits.
#[inline(always)]
pub fn is_branch(f: u8) -> bool
    ensures { result ≡ is_branch f }
{
    (0o050..0o100).contains(&f)
}
