//! The order step: one order of a program.

ghost use Rattle.std.specs.Prelude.{◌≡◌, ◌≢◌, ◌<◌, ◌≤◌, ◌^◌, ◌/◌, ◌%◌, true, false, Some, option_and_then, if◌then◌else◌};
ghost use Rattle.g_order.specs.Order.{decoded};
ghost use Rattle.g_order.specs.Coding.{fields};
ghost use Rattle.g_order.specs.declared.functions.Function.TheVariants as function;
ghost use Rattle.g_mill.specs.OrderReplies.{Does, DoesQuick, TellsMore};
ghost use Rattle.g_mill.specs.Effect.{effect, order, performed};
ghost use Rattle.g_mill.specs.Machine.{going_to, operands};
ghost use Rattle.g_mill.specs.Running.{RunsOne, RunsTo};

use crate::program::following;
use crate::{Event, Program};
use g_order::{
    Condition, Function, Operation, Order, accumulator_in, branch_operand, function_in,
    plain_operands, read_order,
};
use g_word::Word;

/// The outcome of an order at an address, for orders whose event may be Ran.
pub(crate) enum PlainOutcome {
    /// It was executed with the event Ran. The program continues after it; its next address isn't set yet.
    Ran,
    /// It was executed with the event Ran. The program continues at this address, which isn't set yet.
    Jumped(u32),
    /// The same for a branch to this address that isn't taken: the program continues after it. The address is returned as for a taken branch, because
    /// an address that depended on the test would have to wait for it, while the processor can predict the outcome of a test.
    Passed(u32),
    /// It is illegal. Nothing changed.
    Illegal,
    /// Its event isn't Ran, unless it is illegal. Nothing changed yet.
    NeedsStep,
}

impl Program {
    /// Executes the next order and returns its event. An illegal order changes nothing; after any other the program continues after the order, or at
    /// the target of its branch.
    pub fn step(&mut self) -> Event
        ensures machine { self.new ≡ (order self.old).0 }
        ensures event { result ≡ (order self.old).1 }
    {
        if self.run(1) == 1 {
            return Event::Ran;
        }
        let at = self.next();
        let Some(word) = self.word(at) else {
            return Event::Illegal {
                word: Word::ZERO,
                at,
            };
        };
        match self.step_word(word) {
            Some(event) => event,
            None => Event::Illegal { word, at },
        }
    }

    /// Executes the next orders, at most `most`, as long as their event is Ran, and returns their number. An order with another event, or an illegal
    /// one, is left for `step`.
    #[inline(never)]
    pub fn run(&mut self, most: u32) -> u32
        ensures most { result ≤ most }
        ensures ran { RunsTo result self.old self.new }
        ensures stops { result < most → (order self.new).1 ≢ Event.Ran }
    {
        let mut at = u32::from(self.next());
        // The counter has 64 bits because with the resulting code layout no test of the loop crosses a 32-byte boundary. Some processors decode such
        // tests again for every order, which makes an order a quarter slower.
        for done in 0..u64::from(most) {
            match self.run_one(at) {
                PlainOutcome::Ran => at = following(at),
                PlainOutcome::Jumped(next) => at = next,
                PlainOutcome::Passed(_) => at = following(at),
                PlainOutcome::Illegal | PlainOutcome::NeedsStep => {
                    self.go(at);
                    return done as u32;
                }
            }
        }
        self.go(at);
        most
    }

    /// Executes the order at an address if its event is Ran, and returns where the program continues. The program's own next address isn't set,
    /// because storing it in memory takes longer than an order.
    #[inline(always)]
    fn run_one(&mut self, at: u32) -> PlainOutcome
        requires { at < 2 ^ 15 }
        ensures { RunsOne result at self.old self.new }
    {
        let Some(word) = self.operand_at(at) else {
            return PlainOutcome::Illegal;
        };
        self.quick(at, word)
    }

    /// Executes the order of a word at an address, if its event is Ran. Each function reads the fields of the word that it uses.
    #[inline(always)]
    #[tactic(auto, using(crate::proofs::RunningLaws::left_by))]
    fn quick(&mut self, at: u32, word: Word) -> PlainOutcome
        requires { at < 2 ^ 15 }
        ensures { DoesQuick result at self.old self.new
            (option_and_then (performed (going_to self.old at)) (decoded word)) }
    {
        let x = accumulator_in(word);
        match function_in(word) {
            Some(Function::Load(operation)) => {
                let (m, n) = plain_operands(word);
                self.load_by(at, operation, x, m, n)
            }
            Some(Function::Store(operation)) => {
                let (m, n) = plain_operands(word);
                self.store_by(at, operation, x, m, n)
            }
            Some(Function::LoadNumber(operation)) => {
                let (m, n) = plain_operands(word);
                self.load_number_by(at, operation, x, m, n)
            }
            Some(Function::LoadCharacter) => {
                let (m, n) = plain_operands(word);
                self.load_character(at, x, m, n)
            }
            Some(Function::StoreZero) => {
                let (m, n) = plain_operands(word);
                self.store_zero(at, m, n)
            }
            Some(Function::DepositCharacter) => {
                let (m, n) = plain_operands(word);
                self.deposit_character(at, x, m, n)
            }
            Some(Function::Multiply) => {
                let (m, n) = plain_operands(word);
                self.multiply(at, x, m, n)
            }
            Some(Function::Branch(condition)) => {
                let n = branch_operand(word);
                self.branch_by(at, condition, x, n)
            }
            Some(Function::Call) => {
                let n = branch_operand(word);
                self.call(at, x, n)
            }
            Some(Function::Exit) => {
                let n = branch_operand(word);
                self.exit(at, x, n)
            }
            Some(Function::ShiftLeft) => {
                let (m, n) = plain_operands(word);
                self.shift(at, true, x, m, n)
            }
            Some(Function::ShiftRight) => {
                let (m, n) = plain_operands(word);
                self.shift(at, false, x, m, n)
            }
            Some(Function::Move) => {
                let (m, n) = plain_operands(word);
                self.move_words(at, x, m, n)
            }
            Some(Function::Null) => PlainOutcome::Ran,
            Some(Function::Transfer | Function::Halt | Function::Display | Function::Delete) =>
                PlainOutcome::NeedsStep,
            None => PlainOutcome::Illegal,
        }
    }

    /// `load_word`, written out for each operation, so that the operation isn't tested again.
    #[inline(always)]
    fn load_by(&mut self, at: u32, operation: Operation, x: u32, m: u32, n: u32) -> PlainOutcome
        requires at { at < 2 ^ 15 }
        requires x { x < 8 }
        requires m { m < 4 }
        requires n { n < 2 ^ 15 }
        ensures { DoesQuick result at self.old self.new
            (effect (function.Load operation) (going_to self.old at) (operands x m n)) }
    {
        match operation {
            Operation::Take => self.load_word(at, Operation::Take, x, m, n),
            Operation::Add => self.load_word(at, Operation::Add, x, m, n),
            Operation::Negate => self.load_word(at, Operation::Negate, x, m, n),
            Operation::Subtract => self.load_word(at, Operation::Subtract, x, m, n),
            Operation::And => self.load_word(at, Operation::And, x, m, n),
            Operation::Or => self.load_word(at, Operation::Or, x, m, n),
            Operation::Differ => self.load_word(at, Operation::Differ, x, m, n),
        }
    }

    /// `store`, written out for each operation.
    #[inline(always)]
    fn store_by(&mut self, at: u32, operation: Operation, x: u32, m: u32, n: u32) -> PlainOutcome
        requires at { at < 2 ^ 15 }
        requires x { x < 8 }
        requires m { m < 4 }
        requires n { n < 2 ^ 15 }
        ensures { DoesQuick result at self.old self.new
            (effect (function.Store operation) (going_to self.old at) (operands x m n)) }
    {
        match operation {
            Operation::Take => self.store(at, Operation::Take, x, m, n),
            Operation::Add => self.store(at, Operation::Add, x, m, n),
            Operation::Negate => self.store(at, Operation::Negate, x, m, n),
            Operation::Subtract => self.store(at, Operation::Subtract, x, m, n),
            Operation::And => self.store(at, Operation::And, x, m, n),
            Operation::Or => self.store(at, Operation::Or, x, m, n),
            Operation::Differ => self.store(at, Operation::Differ, x, m, n),
        }
    }

    /// `load_number`, written out for each operation.
    #[inline(always)]
    fn load_number_by(
        &mut self,
        at: u32,
        operation: Operation,
        x: u32,
        m: u32,
        n: u32,
    ) -> PlainOutcome
        requires at { at < 2 ^ 15 }
        requires x { x < 8 }
        requires m { m < 4 }
        requires n { n < 2 ^ 15 }
        ensures { DoesQuick result at self.old self.new
            (effect (function.LoadNumber operation) (going_to self.old at) (operands x m n)) }
    {
        match operation {
            Operation::Take => self.load_number(at, Operation::Take, x, m, n),
            Operation::Add => self.load_number(at, Operation::Add, x, m, n),
            Operation::Negate => self.load_number(at, Operation::Negate, x, m, n),
            Operation::Subtract => self.load_number(at, Operation::Subtract, x, m, n),
            Operation::And => self.load_number(at, Operation::And, x, m, n),
            Operation::Or => self.load_number(at, Operation::Or, x, m, n),
            Operation::Differ => self.load_number(at, Operation::Differ, x, m, n),
        }
    }

    /// `branch`, written out for each condition.
    #[inline(always)]
    fn branch_by(&mut self, at: u32, condition: Condition, x: u32, n: u32) -> PlainOutcome
        requires at { at < 2 ^ 15 }
        requires x { x < 8 }
        requires n { n < 2 ^ 15 }
        ensures { DoesQuick result at self.old self.new
            (effect (function.Branch condition) (going_to self.old at) (operands x 0 n)) }
    {
        match condition {
            Condition::Zero => self.branch(at, Condition::Zero, x, n),
            Condition::NotZero => self.branch(at, Condition::NotZero, x, n),
            Condition::NotNegative => self.branch(at, Condition::NotNegative, x, n),
            Condition::Negative => self.branch(at, Condition::Negative, x, n),
            Condition::Always => self.branch(at, Condition::Always, x, n),
            Condition::Overflow => self.branch(at, Condition::Overflow, x, n),
            Condition::OverflowReset => self.branch(at, Condition::OverflowReset, x, n),
            Condition::NoOverflow => self.branch(at, Condition::NoOverflow, x, n),
            Condition::NoOverflowReset => self.branch(at, Condition::NoOverflowReset, x, n),
        }
    }

    /// Executes the order of a word whose event isn't Ran; `None` if it is illegal.
    #[inline(never)]
    #[tactic(auto, using(crate::proofs::RunningLaws::performed_by))]
    fn step_word(&mut self, word: Word) -> Option<Event>
        requires { TellsMore (option_and_then (performed self.old) (decoded word)) }
        ensures { Does result self.old self.new
            (option_and_then (performed self.old) (decoded word)) }
    {
        let (function, order) = read_order(word)?;
        self.run_telling_order(function, &order)
    }

    /// Executes an order of this function if its event isn't Ran; `None` if the order is illegal, which includes all other functions.
    #[tactic(auto, using(crate::proofs::RunningLaws::illegal_else))]
    fn run_telling_order(&mut self, function: Function, order: &Order) -> Option<Event>
        requires { TellsMore (effect function self.old (fields order.now)) }
        ensures { Does result self.old self.new (effect function self.old (fields order.now)) }
    {
        match function {
            Function::Transfer => Some(self.transfer(order)),
            Function::Halt => self.halt(order),
            Function::Display => self.display(order),
            Function::Delete => self.delete(order),
            _ => None,
        }
    }
}
