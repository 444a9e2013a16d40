//! The word of a value, and that of an order.
ghost use Rattle.std.specs.Prelude.{◌≡◌};
ghost use Rattle.std.specs.Option.{option_map};
ghost use Rattle.g_order.specs.Order.{word_of};
ghost use Rattle.g_plan.specs.Assembly as assembly;
ghost use Rattle.g_plan.specs.SecondPass.{IsOperand, IsWordValue};
ghost use Rattle.g_plan.specs.Table.{row_of};

use crate::form::Value;
use crate::mnemonic::{Mnemonic, Row};
use crate::source::Source;
use g_order::{Order, encode};
use g_word::Word;

/// The word of a value.
pub(crate) fn word_for(source: &Source, value: &Value) -> Option<Word>
    requires { IsWordValue value.now }
    ensures { result ≡ assembly.resolved source.now value.now }
{
    match value {
        Value::Number(number) => Word::new(*number),
        Value::Named(label) => match source.place_of(label) {
            Some(place) => Some(Word::from(place)),
            None => None,
        },
    }
}

/// The number that a value denotes.
fn resolved(source: &Source, value: &Value) -> Option<u32>
    ensures { result ≡ assembly.resolved source.now value.now }
{
    match value {
        Value::Number(number) => Some(*number),
        Value::Named(label) => match source.place_of(label) {
            Some(place) => Some(u32::from(place)),
            None => None,
        },
    }
}

/// The address of an order, if its value is within the name's range.
fn address(source: &Source, row: &Row, value: &Value) -> Option<u32>
    ensures { result ≡ assembly.address source.now row.now value.now }
{
    let address = resolved(source, value)?;
    match row.most {
        Some(most) if u32::from(most) < address => None,
        _ => Some(address),
    }
}

/// The word of an order.
pub(crate) fn order_for(
    source: &Source,
    name: Mnemonic,
    x: u8,
    m: u8,
    value: &Value,
) -> Option<Word>
    requires { IsOperand (row_of name) x m value.now }
    ensures { result ≡ option_map (λ a. word_of (assembly.fields_with (row_of name) x m a)) (assembly.address source.now (row_of name) value.now) }
{
    let row = name.row();
    let address = address(source, &row, value)?;
    match Order::new(x, row.f, m, address as u16 + row.adds) {
        Some(order) => Some(encode(&order)),
        None => unreachable!(),
    }
}
