//! A line that is parsed with ample memory.
use g_lang::{Command, Cond, Label, Test, parse_line, read_params};
use g_lines::Texts;
use std::alloc::Global;
use std::test::Fail;

/// Whether a condition is that parameter B isn't `X,Y`.
fn is_asked(cond: &Cond) -> bool {
    match &cond.test {
        Test::Equals { letter, text } => {
            cond.negated && *letter == b'B' && text.as_slice() == b"X,Y".as_slice()
        }
        _ => false,
    }
}

/// Whether parameters are `A (B,C)` and `D`.
fn are_two(params: &Texts) -> bool {
    match params.as_slice() {
        [first, second] => {
            first.as_slice() == b"A (B,C)".as_slice() && second.as_slice() == b"D".as_slice()
        }
        _ => false,
    }
}

/// Whether a command is a COPY with these parameters.
fn is_copy(alloc: Global, command: &Command) -> Result<bool, Fail> {
    match command {
        Command::Verb { name, rest } => {
            let params = read_params(alloc, rest.as_slice())?;
            Ok(
                name.as_slice() == b"COPY".as_slice()
                    && are_two(&params)
                    && rest.as_slice() == b"A (B,C) , D".as_slice(),
            )
        }
        _ => Ok(false),
    }
}

/// Whether a command is that COPY under that condition.
fn is_done(alloc: Global, command: &Command) -> Result<bool, Fail> {
    match command {
        Command::If { cond, inner } => Ok(is_asked(cond) && is_copy(alloc, inner)?),
        _ => Ok(false),
    }
}

/// Whether a label is `1A`.
fn is_label(label: Option<&Label>) -> bool {
    label.is_some_and(|label| label.as_slice() == b"1A".as_slice())
}

/// A label, a condition and a verb with its parameters, with ample memory.
#[test]
fn ample(rt: HostRuntime) -> Result<(), Fail> {
    let line = parse_line(rt.alloc(), b" 1A IF NOT STRING(%B)=(X,Y),COPY A (B,C) , D ")?;
    assert!(rt; is_label(line.label.as_ref()));
    assert!(rt; is_done(rt.alloc(), &line.command)?);
    Ok(())
}
