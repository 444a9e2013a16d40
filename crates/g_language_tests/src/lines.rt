//! Lines, good and bad; what they say and their bad places were derived manually from the grammar.
use g_lang::{
    Command, Label, LangFault, Line, Test, count_params, is_input_line, label_of, only_param,
    param_at, parse_line, read_params, two_params,
};
use g_lines::Texts;
use std::alloc::Global;
use std::test::Fail;

/// A line with a verb: its text, its label, the verb, the parameters, and the text from the first parameter on.
type Verb = (
    &'static [u8],
    Option<&'static [u8]>,
    &'static [u8],
    &'static [&'static [u8]],
    &'static [u8],
);

static VERBS: [Verb; 21] = [
    (b"COPY", None, b"COPY", &[], b""),
    (b"  COPY  ", None, b"COPY", &[], b""),
    (
        b"12 DISPLAY A (B,C) , D ",
        Some(b"12"),
        b"DISPLAY",
        &[b"A (B,C)", b"D"],
        b"A (B,C) , D",
    ),
    (b"1   X   A", Some(b"1"), b"X", &[b"A"], b"A"),
    (b"M ,X", None, b"M", &[b"", b"X"], b",X"),
    (b"M STOP,", None, b"M", &[b"STOP", b""], b"STOP,"),
    (b"DISPLAY ,", None, b"DISPLAY", &[b"", b""], b","),
    (b"DISPLAY ,X ", None, b"DISPLAY", &[b"", b"X"], b",X"),
    (b"IFX A", None, b"IFX", &[b"A"], b"A"),
    (b"IF-", None, b"IF-", &[], b""),
    (b"GOTO1", None, b"GOTO1", &[], b""),
    (
        b"X ((,),(,)),B",
        None,
        b"X",
        &[b"((,),(,))", b"B"],
        b"((,),(,)),B",
    ),
    (
        b"ABCDEFGHIJKL ~ !",
        None,
        b"ABCDEFGHIJKL",
        &[b"~ !"],
        b"~ !",
    ),
    (
        b"123456789ABC INPUT f",
        Some(b"123456789ABC"),
        b"INPUT",
        &[b"f"],
        b"f",
    ),
    (b"COPY   A , B  ", None, b"COPY", &[b"A", b"B"], b"A , B"),
    (b"COPY F, ", None, b"COPY", &[b"F", b""], b"F,"),
    (b"COPY A,,B", None, b"COPY", &[b"A", b"", b"B"], b"A,,B"),
    (
        b"COPY (A,B),C",
        None,
        b"COPY",
        &[b"(A,B)", b"C"],
        b"(A,B),C",
    ),
    (b"COPY a~", None, b"COPY", &[b"a~"], b"a~"),
    (b"A-", None, b"A-", &[], b""),
    (b"1 INPUT", Some(b"1"), b"INPUT", &[], b""),
];

/// A line with a condition: its text, whether it has NOT, the first letter of the test, a parameter's letter, and a text.
type Condition = (&'static [u8], bool, u8, u8, &'static [u8]);

static CONDITIONS: [Condition; 9] = [
    (b"IF COMMAND ERROR,X", false, b'C', 0, b""),
    (b"IF NOT FAILED,X", true, b'F', 0, b""),
    (b"IF HALTED(),X", false, b'H', 0, b""),
    (b"IF HALTED(OK, DONE),X", false, b'H', 0, b"OK, DONE"),
    (b"IF NOT DELETED( A ),X", true, b'D', 0, b" A "),
    (b"IF PRESENT(%A),X", false, b'P', b'A', b""),
    (b"IF ABSENT(%X),X", false, b'A', b'X', b""),
    (b"IF NOT STRING(%A)=(X,Y),GOTO 1", true, b'S', b'A', b"X,Y"),
    (b"1 IF STRING(%B)=(),X", false, b'S', b'B', b""),
];

/// Lines without a command, with their labels.
static BLANK: [(&[u8], Option<&[u8]>); 3] = [(b"1 ", Some(b"1")), (b"  ", None), (b"", None)];

static BAD: [(&[u8], usize); 59] = [
    (b"IF FAILED,INPUT F", 15),
    (b"WHENEVER FAILED,INPUT", 21),
    (b"WHENEVER FAILED,WHENEVER FAILED,INPUT F", 37),
    (b"IF  FAILED,X", 3),
    (b"IF FAILED, X", 10),
    (b"IF FAILED ,X", 9),
    (b"IF NOT  FAILED,X", 7),
    (b"IF NOT NOT FAILED,X", 7),
    (b"IF COMMAND  ERROR,X", 11),
    (b"IF COMMAND ERROR", 16),
    (b"IF PRESENT( %A),X", 11),
    (b"IF PRESENT(%Y),X", 12),
    (b"IF STRING(%A) =(X),Y", 13),
    (b"IF HALTED(A(B)),X", 11),
    (b"IF FAILED,", 10),
    (b"IF FAILED,1 X", 10),
    (b"IF FAILED,GOTO", 14),
    (b"IF", 2),
    (b"WHENEVER", 8),
    (b"GOTO", 4),
    (b"GOTO ", 5),
    (b"GOTO  1", 5),
    (b"GOTO A", 5),
    (b"GOTO 1 2", 7),
    (b"12 GOTO 12 X", 11),
    (b"GOTO 1234567890123", 17),
    (b"1234567890123", 12),
    (b"1,2", 1),
    (b"12monkeys", 2),
    (b"  copy", 2),
    (b"ABCDEFGHIJKLM", 12),
    (b"COPY\t", 4),
    (b"DISPLAY \x7f", 8),
    (b"COPY (F", 7),
    (b"A)", 1),
    (b"X A)", 3),
    (b"X (A))", 5),
    (b"-", 0),
    (b"copy", 0),
    (b"-A", 0),
    (b"1a", 1),
    (b"A_B", 1),
    (b"1 2", 2),
    (b"IF ", 3),
    (b"12 monkeys", 3),
    (b"GOTO X", 5),
    (b"COPY )(", 5),
    (b"COPY F)", 6),
    (b"IF NOTFAILED,X", 6),
    (b"INPUT F(", 8),
    (b"IF FAILED", 9),
    (b"COPY ((A)", 9),
    (b"IF PRESENT(A),X", 11),
    (b"IF FAILED,IF", 12),
    (b"IF STRING(%A)= (A),X", 14),
    (b"IF FAILED,INPUT", 15),
    (b"WHENEVER FAILED,X,Y", 17),
    (b"IF FAILED,IF FAILED,INPUT F", 25),
    (b"WHENEVER FAILED,IF FAILED,INPUT F", 31),
];

/// Whether the verb of a line is INPUT.
static INPUTS: [(&[u8], bool); 11] = [
    (b"INPUT F", true),
    (b" INPUT", true),
    (b"1 INPUT F", true),
    (b"INPUT f,G", true),
    (b"INPUT F(", false),
    (b"INPUTX F", false),
    (b"COPY INPUT", false),
    (b"IF FAILED,X", false),
    (b"GOTO 1", false),
    (b"1", false),
    (b"", false),
];

/// The label of a line, also of one that isn't in the language.
static LABELS: [(&[u8], Option<&[u8]>); 7] = [
    (b"12 monkeys", Some(b"12")),
    (b"  1A", Some(b"1A")),
    (b"1,2", None),
    (b"A 1", None),
    (b"1234567890123 X", None),
    (b" ", None),
    (b"", None),
];

/// Whether a command is this verb with these parameters.
fn is_verb(
    alloc: Global,
    command: &Command,
    verb: &[u8],
    params: &[&[u8]],
    rest: &[u8],
) -> Result<bool, Fail> {
    let Command::Verb { name, rest: all } = command else {
        return Ok(false);
    };
    let told = read_params(alloc, all.as_slice())?;
    Ok(
        name.as_slice() == verb
            && all.as_slice() == rest
            && are_params(&told, all.as_slice(), params),
    )
}

fn are_params(told: &Texts, all: &[u8], params: &[&[u8]]) -> bool {
    let told = told.as_slice();
    if told.len() != params.len()
        || count_params(all) != params.len()
        || param_at(all, params.len()).is_some()
        || only_param(all).is_some() != (params.len() == 1)
        || two_params(all).is_some() != (params.len() == 2)
    {
        return false;
    }
    for i in 0..told.len() {
        if told[i].as_slice() != params[i] || param_at(all, i) != Some(params[i]) {
            return false;
        }
    }
    true
}

/// Whether a label is this one.
fn is_label(told: Option<&Label>, label: Option<&[u8]>) -> bool {
    match (told, label) {
        (Some(told), Some(label)) => told.as_slice() == label,
        (None, None) => true,
        _ => false,
    }
}

/// Whether a line reads as its row says.
fn is_verb_read(alloc: Global, row: &Verb) -> Result<bool, Fail> {
    let (text, label, verb, params, rest) = row;
    let line = parse_line(alloc, text)?;
    Ok(is_label(line.label.as_ref(), *label) && is_verb(alloc, &line.command, verb, params, rest)?)
}

#[test]
fn verbs(rt: HostRuntime) -> Result<(), Fail> {
    for row in VERBS.iter() {
        assert!(rt; is_verb_read(rt.alloc(), row)?, "in {:?}", row.0);
    }
    Ok(())
}

/// A test by its first letter, with its parameter's letter and its text.
fn told(test: &Test) -> (u8, u8, &[u8]) {
    match test {
        Test::CommandError => (b'C', 0, &[]),
        Test::Failed => (b'F', 0, &[]),
        Test::Halted(text) => (b'H', 0, text.as_slice()),
        Test::Deleted(text) => (b'D', 0, text.as_slice()),
        Test::Present(letter) => (b'P', *letter, &[]),
        Test::Absent(letter) => (b'A', *letter, &[]),
        Test::Equals { letter, text } => (b'S', *letter, text.as_slice()),
    }
}

/// Whether a command follows this condition.
fn is_behind(command: &Command, is_negated: bool, kind: u8, letter: u8, plain: &[u8]) -> bool {
    let Command::If { cond, .. } = command else {
        return false;
    };
    let (told_kind, told_letter, told_plain) = told(&cond.test);
    cond.negated == is_negated && told_kind == kind && told_letter == letter && told_plain == plain
}

/// Whether a line reads as its row says.
fn is_condition_read(alloc: Global, row: &Condition) -> Result<bool, Fail> {
    let (text, is_negated, kind, letter, plain) = row;
    let line = parse_line(alloc, text)?;
    Ok(is_behind(&line.command, *is_negated, *kind, *letter, plain))
}

#[test]
fn conditions(rt: HostRuntime) -> Result<(), Fail> {
    for row in CONDITIONS.iter() {
        assert!(rt; is_condition_read(rt.alloc(), row)?, "in {:?}", row.0);
    }
    Ok(())
}

/// A command that waits is stored unchanged, without its trailing spaces.
#[test]
fn waiting_commands(rt: HostRuntime) -> Result<(), Fail> {
    let Line { label: _, command } = parse_line(
        rt.alloc(),
        b"WHENEVER FAILED,WHENEVER FAILED,X  Y  ",
    )?;
    let Command::Whenever { cond, command } = command else {
        panic!(rt; "another command");
    };
    assert!(rt; !cond.negated);
    assert!(rt; command.as_slice() == b"WHENEVER FAILED,X  Y".as_slice());
    Ok(())
}

/// Whether a line has this label, and no command.
fn is_blank(alloc: Global, text: &[u8], label: Option<&[u8]>) -> Result<bool, Fail> {
    let line = parse_line(alloc, text)?;
    Ok(is_label(line.label.as_ref(), label) && matches!(&line.command, Command::Blank))
}

#[test]
fn lines_without_commands(rt: HostRuntime) -> Result<(), Fail> {
    for (text, label) in BLANK.iter() {
        assert!(rt; is_blank(rt.alloc(), text, *label)?, "in {text:?}");
    }
    Ok(())
}

#[test]
fn goto(rt: HostRuntime) -> Result<(), Fail> {
    let Line { label: _, command } = parse_line(rt.alloc(), b"7 GOTO 9-ER ")?;
    let Command::Goto(label) = command else {
        panic!(rt; "another command");
    };
    assert!(rt; label.as_slice() == b"9-ER".as_slice());
    Ok(())
}

#[test]
fn bad_lines(rt: HostRuntime) {
    for (text, place) in BAD.iter() {
        let is_bad = match parse_line(rt.alloc(), text) {
            Err(LangFault::BadLine(told)) => told == *place,
            _ => false,
        };
        assert!(rt; is_bad, "at {text:?}");
    }
}

#[test]
fn inputs(rt: HostRuntime) {
    for (text, is_input) in INPUTS.iter() {
        assert!(rt; is_input_line(text) == *is_input, "at {text:?}");
    }
}

#[test]
fn labels(rt: HostRuntime) {
    for (text, label) in LABELS.iter() {
        assert!(rt; is_label(label_of(text).as_ref(), *label), "of {text:?}");
    }
}
