//! One order of a program with its transfer.

ghost use Rattle.std.specs.Prelude.{◌≡◌, ◌<◌, IfOk};
ghost use Rattle.g_mill.specs.Machine.{size, preceding};
ghost use Rattle.g_peri.specs.OneOrder.{Orders, Transferred, Stays};

use crate::units::{PeriFault, Units};
use g_base::NoMemory;
use g_mill::{Event, Program, Text40};
use g_word::Word;

/// The event of one order of a program, with its transfer if it requested one.
#[derive(Drop, PartialEq, Eq)]
pub enum OrderEvent {
    /// The order was executed, with its transfer.
    Ran,
    /// The program halted and waits to be resumed.
    Halted(Text40),
    /// The program displays a text and continues.
    Displayed(Text40),
    /// The program deletes itself.
    Deleted(Text40),
    /// The order is illegal, it needs words past the program's end, or its transfer is illegal. Nothing changed.
    Illegal {
        /// The word of the order, or 0 if the program has no word at `at`.
        word: Word,
        /// The address of the order.
        at: u16,
    },
}

impl Units {
    /// Executes the next order of a program, and the transfer that it may request. An illegal order changes neither units nor program, and neither
    /// does running out of memory, so the order can be tried again.
    pub fn one_order(&mut self, program: &mut Program) -> Result<OrderEvent, NoMemory>
        ensures ordered { Orders result self.old program.old self.new program.new }
        ensures illegal { IfOk result
            (λ event. Stays event self.old program.old self.new program.new) }
    {
        let at = program.next();
        match program.step() {
            Event::Ran => Ok(OrderEvent::Ran),
            Event::Peri { area } => self.transfer(program, area, at),
            Event::Halted(text) => Ok(OrderEvent::Halted(text)),
            Event::Displayed(text) => Ok(OrderEvent::Displayed(text)),
            Event::Deleted(text) => Ok(OrderEvent::Deleted(text)),
            Event::Illegal { word, at } => Ok(OrderEvent::Illegal { word, at }),
        }
    }

    /// Makes the transfer that the order at an address requests; the program is already past the order.
    fn transfer(
        &mut self,
        program: &mut Program,
        area: u16,
        at: u16,
    ) -> Result<OrderEvent, NoMemory>
        requires within { at < size program.old }
        requires passed { preceding program.old.next ≡ at }
        ensures { Transferred result self.old program.old self.new program.new area }
    {
        match self.peri(program, area) {
            Ok(()) => Ok(OrderEvent::Ran),
            Err(PeriFault::Illegal) => {
                let word = program.word_in(at);
                Ok(OrderEvent::Illegal { word, at })
            }
            Err(PeriFault::NoMemory) => {
                program.step_back();
                Err(NoMemory)
            }
        }
    }
}
