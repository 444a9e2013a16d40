//! The lines that levels return.
ghost use Rattle.std.specs.Prelude.{◌≡◌, ◌<◌, length, IfOk};

use g_lang::{Command, Label, Line, parse_line};
use g_lines::{Document, Texts};
use g_macro::{EventNote, Levels, MacroFault, Outcome};
use g_name::Text;
use std::alloc::Global;
use std::test::Fail;

/// A line after substitution: the first two parameters, the line, and the result.
static LINES: [(&[u8], &[u8], &[u8], &[u8]); 12] = [
    (b"X", b"", b"DISPLAY %A%%%B-%", b"DISPLAY X%-%"),
    (
        b"X",
        b"",
        b"IF PRESENT(%B),DISPLAY %A",
        b"IF PRESENT(%B),DISPLAY X",
    ),
    (b"X", b"", b"%PRESENT(%A)", b"RESENT(%A)"),
    (b"X", b"", b"PRESENT(%A", b"PRESENT(%A"),
    (
        b"X",
        b"",
        b"ABSENT(%A) STRING(%B)=(%A)",
        b"ABSENT(%A) STRING(%B)=(X)",
    ),
    (b"PRESENT(", b"Y", b"%A%B", b"PRESENT(Y"),
    (b"%B", b"Y", b"%A%B", b"%BY"),
    (b"X", b"", b"%%A", b"%A"),
    (b"X", b"", b"%a%Y%", b"%a%Y%"),
    (b"X", b"", b"%C%X", b""),
    (b"X", b"", b"", b""),
    (b"GO", b"", b"2 DISPLAY AT 2 %%A", b"2 DISPLAY AT 2 %A"),
];

fn one(alloc: Global, line: &[u8]) -> Result<Texts, Fail>
    ensures { IfOk result (λ list. length list ≡ 1) }
{
    let mut list = Texts::new(alloc);
    list.push(Text::from_slice(alloc, line)?)?;
    Ok(list)
}

/// A document of one line.
fn lone(alloc: Global, line: &[u8]) -> Result<Document, Fail> {
    let mut text = Text::from_slice(alloc, line)?;
    text.push(b'\n')?;
    Ok(Document::of_text(alloc, text.as_slice())?)
}

fn two(alloc: Global, first: &[u8], second: &[u8]) -> Result<Texts, Fail>
    ensures { IfOk result (λ list. length list ≡ 2) }
{
    let mut list = one(alloc, first)?;
    list.push(Text::from_slice(alloc, second)?)?;
    Ok(list)
}

/// The levels of a job with this document.
fn begun(alloc: Global, document: &[u8]) -> Result<Levels, Fail>
    ensures { IfOk result (λ levels. 0 < length levels.levels) }
{
    let levels = Levels::new(alloc, Document::of_text(alloc, document)?)?;
    Ok(levels)
}

/// Whether the next line is this one.
fn next_is(alloc: Global, levels: &mut Levels, line: &[u8]) -> Result<bool, Fail> {
    match levels.next_line(Text::new(alloc))? {
        Some(told) => Ok(told.as_slice() == line),
        None => Ok(false),
    }
}

/// Whether the next line is refused for its length, with this prefix.
fn next_is_cut(alloc: Global, levels: &mut Levels, front: &[u8]) -> bool {
    match levels.next_line(Text::new(alloc)) {
        Err(MacroFault::TooLong(told)) => told.as_slice() == front,
        _ => false,
    }
}

/// Whether the line of a macro with two parameters becomes this one.
fn becomes(alloc: Global, a: &[u8], b: &[u8], line: &[u8], filled: &[u8]) -> Result<bool, Fail> {
    let mut levels = begun(alloc, b"")?;
    levels.call(alloc, lone(alloc, line)?, two(alloc, a, b)?)?;
    next_is(alloc, &mut levels, filled)
}

#[test]
fn parameters(rt: HostRuntime) -> Result<(), Fail> {
    for (a, b, line, filled) in LINES.iter() {
        assert!(rt; becomes(rt.alloc(), a, b, line, filled)?);
    }
    Ok(())
}

/// A macro whose first line is its parameter, whose second is that and one byte, and whose third is `END`.
fn with_parameter(alloc: Global, param: &[u8]) -> Result<Levels, Fail> {
    let mut levels = begun(alloc, b"")?;
    levels.call(
        alloc,
        Document::of_text(alloc, b"%A\n%AB\nEND")?,
        one(alloc, param)?,
    )?;
    Ok(levels)
}

/// A line of 240 bytes is taken; of a longer one the first 240 are returned, and the next line follows it.
#[test]
fn long_lines(rt: HostRuntime) -> Result<(), Fail> {
    let long = [b'Z'; 240];
    let mut levels = with_parameter(rt.alloc(), &long)?;
    assert!(rt; next_is(rt.alloc(), &mut levels, &long)?);
    assert!(rt; next_is_cut(rt.alloc(), &mut levels, &long));
    assert!(rt; next_is(rt.alloc(), &mut levels, b"END")?);
    assert!(rt; levels.next_line(Text::new(rt.alloc()))?.is_none());
    Ok(())
}

/// Takes this line, and then goes to a label.
fn go_behind(alloc: Global, levels: &mut Levels, line: &[u8], label: &[u8]) -> Result<(), Fail> {
    let label = Label::new(label).ok_or("no label")?;
    let Some(told) = levels.next_line(Text::new(alloc))? else {
        return Err("no line".into());
    };
    if told.as_slice() != line {
        return Err("another line".into());
    }
    levels.goto(&label)?;
    Ok(())
}

/// GOTO jumps to the first line with the label, also backwards.
#[test]
fn labels(rt: HostRuntime) -> Result<(), Fail> {
    let mut levels = begun(rt.alloc(), b"1 GOTO 2X\n2X DISPLAY A\n2X DISPLAY B")?;
    assert!(rt; next_is(rt.alloc(), &mut levels, b"1 GOTO 2X")?);
    assert!(rt; next_is(rt.alloc(), &mut levels, b"2X DISPLAY A")?);
    go_behind(rt.alloc(), &mut levels, b"2X DISPLAY B", b"2X")?;
    assert!(rt; next_is(rt.alloc(), &mut levels, b"2X DISPLAY A")?);
    Ok(())
}

/// The document of an INPUT ends at `////`, which is also passed.
#[test]
fn documents(rt: HostRuntime) -> Result<(), Fail> {
    let mut levels = begun(rt.alloc(), b"A\n%A\n////\nEND")?;
    assert!(rt; begins_with(rt.alloc(), &mut levels, b"A\n%A\n")?);
    assert!(rt; next_is(rt.alloc(), &mut levels, b"END")?);
    Ok(())
}

/// Stores the command of a WHENEVER in the current level.
fn let_wait(alloc: Global, levels: &mut Levels, line: &[u8]) -> Result<(), Fail>
    requires { 0 < length levels.old.levels }
{
    let Line { label: _, command } = parse_line(alloc, line)?;
    let Command::Whenever { cond, command } = command else {
        return Err("another command".into());
    };
    levels.whenever(cond, command)?;
    Ok(())
}

/// A macro `M` of one line, which calls it again, up to the eighth level; returns whether each line was that.
fn deepen(alloc: Global, levels: &mut Levels) -> Result<bool, Fail> {
    for _ in 0..7 {
        if !next_is(alloc, levels, b"M")? {
            return Ok(false);
        }
        levels.call(alloc, lone(alloc, b"M")?, Texts::new(alloc))?;
    }
    next_is(alloc, levels, b"M")
}

/// Whether another macro would be too deep.
fn is_deepest(alloc: Global, levels: &mut Levels) -> Result<bool, Fail> {
    let deep = levels.call(alloc, lone(alloc, b"M")?, Texts::new(alloc));
    Ok(matches!(deep, Err(MacroFault::TooDeep)))
}

/// Whether this command fires at an error.
fn fires(alloc: Global, levels: &mut Levels, command: &[u8]) -> Result<bool, Fail> {
    let outcome = Outcome {
        error: true,
        event: EventNote::None,
    };
    match levels.fire(alloc, &outcome)? {
        Some(told) => Ok(told.as_slice() == command),
        None => Ok(false),
    }
}

/// A macro that calls itself reaches the eighth level; then the command that waits for an error is executed in the document's level.
#[test]
fn the_deepest_macro(rt: HostRuntime) -> Result<(), Fail> {
    let mut levels = begun(rt.alloc(), b"M\nDISPLAY NOT HERE\n9ER DISPLAY CAUGHT")?;
    let_wait(rt.alloc(), &mut levels, b"WHENEVER COMMAND ERROR,GOTO 9ER")?;
    assert!(rt; deepen(rt.alloc(), &mut levels)?);
    assert!(rt; is_deepest(rt.alloc(), &mut levels)?);
    assert!(rt; fires(rt.alloc(), &mut levels, b"GOTO 9ER")?);
    assert!(rt; next_is(rt.alloc(), &mut levels, b"DISPLAY NOT HERE")?);
    Ok(())
}

/// Stores the command of a WHENEVER in the level of the next line, which is this one.
fn let_wait_behind(
    alloc: Global,
    levels: &mut Levels,
    next: &[u8],
    line: &[u8],
) -> Result<(), Fail> {
    let Line { label: _, command } = parse_line(alloc, line)?;
    let Command::Whenever { cond, command } = command else {
        return Err("another command".into());
    };
    let Some(told) = levels.next_line(Text::new(alloc))? else {
        return Err("no line".into());
    };
    if told.as_slice() != next {
        return Err("another line".into());
    }
    levels.whenever(cond, command)?;
    Ok(())
}

/// Whether the document of the first INPUT is this.
fn begins_with(alloc: Global, levels: &mut Levels, text: &[u8]) -> Result<bool, Fail>
    requires { 0 < length levels.old.levels }
{
    let document = levels.document(alloc)?;
    Ok(document.as_slice() == text)
}

/// A document with a macro that is called, and a command that waits and is executed, with ample memory.
#[test]
fn ample(rt: HostRuntime) -> Result<(), Fail> {
    let mut levels = begun(rt.alloc(), b"A\n////\nM X")?;
    assert!(rt; begins_with(rt.alloc(), &mut levels, b"A\n")?);
    let_wait_behind(
        rt.alloc(),
        &mut levels,
        b"M X",
        b"WHENEVER COMMAND ERROR,END",
    )?;
    levels.call(
        rt.alloc(),
        lone(rt.alloc(), b"DISPLAY %A")?,
        one(rt.alloc(), b"X")?,
    )?;
    assert!(rt; next_is(rt.alloc(), &mut levels, b"DISPLAY X")?);
    assert!(rt; fires(rt.alloc(), &mut levels, b"END")?);
    Ok(())
}
