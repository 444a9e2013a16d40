//! Control areas of transfers.

ghost use Rattle.std.specs.Prelude.{◌≡◌, ◌+◌, ◌≤◌, ◌^◌, IfSome};
ghost use Rattle.g_mill.specs.Machine.{size, words_for};
ghost use Rattle.g_peri.specs.Transfer.{control_of};

use crate::unit::Unit;
use g_mill::Program;
use std::marker::Model;

/// The contents of a control area. Contracts see its three numbers.
#[derive(Drop)]
pub(crate) struct Control {
    pub unit: Unit,
    /// How many characters, 1 to 160.
    pub count: u8,
    /// The address of the buffer.
    pub from: u16,
}

impl Model for Control {
    ghost use Rattle.std.specs.Prelude.{◌<◌, ◌≤◌, ◌^◌};
    ghost use Rattle.g_peri.specs.JobUnits.{number_of};
    ghost use Rattle.g_peri.specs.Transfer.{Area};

    ghost Value = { Area };

    ghost view = { λ c. record { unit = number_of c.unit; count = c.count; from = c.from } };

    ghost invariant = { λ c. (c.count ≤ 160) × (c.from < 2 ^ 15) };
}

/// The contents of a control area, if area and buffer are in the program and unit and count are in range.
pub(crate) fn read_control(program: &Program, area: u16) -> Option<Control>
    ensures value { result ≡ control_of program.now area }
    ensures area { IfSome result (λ _. (area + 4 ≤ size program.now) × (area + 4 ≤ 2 ^ 15)) }
    ensures buffer { IfSome result (λ c. c.from + words_for c.count ≤ size program.now) }
{
    let size = program.size();
    if u32::from(area) + 4 > size {
        return None;
    }
    let unit = Unit::of_number(program.word_in(area).value())?;
    let count = program.word_in(area + 2).value();
    let from = program.word_in(area + 3).value();
    if count == 0 || count > 160 || from + (count + 3) / 4 > size {
        return None;
    }
    Some(Control {
        unit,
        count: count as u8,
        from: from as u16,
    })
}
