//! The table of function numbers.

ghost use Rattle.std.specs.Prelude.{◌≡◌, ◌<◌, ◌^◌, None};
ghost use Rattle.g_order.specs.Order.{function_number, is_branch};
ghost use Rattle.g_order.specs.Table as table;

/// What an order makes of an old word and an operand.
#[derive(Clone, Copy, PartialEq, Eq)]
pub enum Operation {
    /// The operand.
    Take,
    /// The old word plus the operand.
    Add,
    /// The operand with the other sign.
    Negate,
    /// The old word less the operand.
    Subtract,
    /// Bit by bit, whether both are set.
    And,
    /// Bit by bit, whether one is set.
    Or,
    /// Bit by bit, whether they differ.
    Differ,
}

/// When a branch is taken. A test that resets clears overflow, whether the branch is taken or not.
#[derive(Clone, Copy, PartialEq, Eq)]
pub enum Condition {
    /// BZE: the accumulator is 0.
    Zero,
    /// BNZ: the accumulator isn't 0.
    NotZero,
    /// BPZ: the accumulator is 0 or more.
    NotNegative,
    /// BNG: the accumulator is below 0.
    Negative,
    /// BRN.
    Always,
    /// BVS: overflow is set.
    Overflow,
    /// BVSR: overflow is set; clears it.
    OverflowReset,
    /// BVC: overflow is clear.
    NoOverflow,
    /// BVCR: overflow is clear; clears it.
    NoOverflowReset,
}

/// What an order does. `x` is the accumulator that its X names, `n` the word at its address.
#[derive(Clone, Copy, PartialEq, Eq)]
pub enum Function {
    /// LDX, ADX, NGX, SBX, ANDX, ORX, ERX: `x` becomes what the operation makes of `x` and `n`.
    Load(Operation),
    /// STO, ADS, NGS, SBS, ANDS, ORS, ERS: `n` becomes what the operation makes of `n` and `x`.
    Store(Operation),
    /// LDN, ADN, NGN, SBN, ANDN, ORN, ERN: as `Load`, with the address itself as the operand.
    LoadNumber(Operation),
    /// LDCH: `x` becomes a character of `n`.
    LoadCharacter,
    /// STOZ: `n` becomes 0.
    StoreZero,
    /// DCH: a character of `n` becomes the last of `x`.
    DepositCharacter,
    /// MPY: `x` and the next accumulator become the product of `x` and `n`.
    Multiply,
    /// BZE, BNZ, BPZ, BNG, BRN, BVS, BVSR, BVC, BVCR.
    Branch(Condition),
    /// CALL: jumps to a routine and stores the return address in `x`.
    Call,
    /// EXIT: returns by `x`.
    Exit,
    /// The shifts to the left, circular or logical by N.
    ShiftLeft,
    /// The shifts to the right, circular or logical by N.
    ShiftRight,
    /// NULL: nothing.
    Null,
    /// MOVE: copies words.
    Move,
    /// PERI: a transfer with a peripheral unit.
    Transfer,
    /// SUSTY: halts with a text.
    Halt,
    /// DISTY: displays a text.
    Display,
    /// DELTY: deletes the program with a text.
    Delete,
}

/// The function of orders with this F and X, or `None` if the table has no row for them.
#[inline(always)]
#[tactic(auto, unfolding(crate::specs::Table::function_of))]
pub fn function_of(f: u32, x: u32) -> Option<Function>
    ensures { result ≡ table.function_of f x }
{
    let function = match f {
        0o000 => Function::Load(Operation::Take),
        0o001 => Function::Load(Operation::Add),
        0o002 => Function::Load(Operation::Negate),
        0o003 => Function::Load(Operation::Subtract),
        0o010 => Function::Store(Operation::Take),
        0o011 => Function::Store(Operation::Add),
        0o012 => Function::Store(Operation::Negate),
        0o013 => Function::Store(Operation::Subtract),
        0o020 => Function::Load(Operation::And),
        0o021 => Function::Load(Operation::Or),
        0o022 => Function::Load(Operation::Differ),
        0o024 => Function::LoadCharacter,
        0o030 => Function::Store(Operation::And),
        0o031 => Function::Store(Operation::Or),
        0o032 => Function::Store(Operation::Differ),
        0o033 => Function::StoreZero,
        0o034 => Function::DepositCharacter,
        0o040 => Function::Multiply,
        0o050 => Function::Branch(Condition::Zero),
        0o052 => Function::Branch(Condition::NotZero),
        0o054 => Function::Branch(Condition::NotNegative),
        0o056 => Function::Branch(Condition::Negative),
        0o070 => Function::Call,
        0o072 => Function::Exit,
        0o074 => return branch_by_x(x),
        0o100 => Function::LoadNumber(Operation::Take),
        0o101 => Function::LoadNumber(Operation::Add),
        0o102 => Function::LoadNumber(Operation::Negate),
        0o103 => Function::LoadNumber(Operation::Subtract),
        0o110 => Function::ShiftLeft,
        0o112 => Function::ShiftRight,
        0o120 => Function::LoadNumber(Operation::And),
        0o121 => Function::LoadNumber(Operation::Or),
        0o122 => Function::LoadNumber(Operation::Differ),
        0o123 => Function::Null,
        0o126 => Function::Move,
        0o157 => Function::Transfer,
        0o160 => return text_by_x(x),
        _ => return None,
    };
    Some(function)
}

/// The function of the words that have this number in the seven bits of F, and this X. The last of these bits belongs to the address of a branch, so
/// a branch has two such numbers: its own, and the next odd one if its address is 2^14 or more, which is rare.
#[inline(always)]
pub(crate) fn function_at(number: u32, x: u32) -> Option<Function>
    requires number { number < 2 ^ 7 }
    requires x { x < 8 }
    ensures { result ≡ table.function_of (function_number number) x }
{
    match function_of(number, x) {
        Some(function) => Some(function),
        None => far_branch(number, x),
    }
}

/// The function of the words that have this number, which no row of the table has.
fn far_branch(number: u32, x: u32) -> Option<Function>
    requires number { number < 2 ^ 7 }
    requires x { x < 8 }
    requires none { table.function_of number x ≡ None }
    ensures { result ≡ table.function_of (function_number number) x }
{
    if number % 2 == 1 && is_branch(number) {
        function_of(number - 1, x)
    } else {
        None
    }
}

/// Whether a number is that of a branch.
fn is_branch(number: u32) -> bool
    ensures { result ≡ is_branch number }
{
    (0o050..0o100).contains(&number)
}

/// The orders of F 074.
fn branch_by_x(x: u32) -> Option<Function>
    ensures { result ≡ table.row table.branches_by_x x }
{
    let condition = match x {
        0 => Condition::Always,
        1 => Condition::Overflow,
        2 => Condition::OverflowReset,
        3 => Condition::NoOverflow,
        4 => Condition::NoOverflowReset,
        _ => return None,
    };
    Some(Function::Branch(condition))
}

/// The orders of F 160.
fn text_by_x(x: u32) -> Option<Function>
    ensures { result ≡ table.row table.texts_by_x x }
{
    match x {
        0 => Some(Function::Halt),
        1 => Some(Function::Display),
        2 => Some(Function::Delete),
        _ => None,
    }
}
