//! Parsing the text of a line.
ghost use Rattle.std.specs.Prelude.{◌≡◌, ◌≢◌, ◌^◌, ◌<◌, ◌≤◌, ◌+◌, ◌∷◌, ℕ, [], codes, length, None, Some, true, IfOk, IfSome, IsFalse, MatchOption};
ghost use Rattle.g_lang.specs.LineReader as how;
ghost use Rattle.g_lang.specs.Lines.{IsCommandText, KeepsCommand, is_verb};
ghost use Rattle.g_lang.specs.Meaning.{Reads, IsReadAs, command_said, line_said, is_input_said};
ghost use Rattle.g_lang.specs.Texts.{HasCommands, IsCut, IsVerbText, ReadsParams};
ghost use Rattle.g_lang.specs.Words.{has_label, is_label, label_in, without_front};

use crate::bytes::{is_digit, is_label};
use crate::pieces::{
    behind, split_at_comma, split_condition, split_word, trimmed, without_back, without_front,
    without_last,
};
use crate::reader::{is_keyword, wrong_by_steps, wrong_in_params, wrong_place};
use crate::{Command, Cond, Label, LangFault, Line, Rest, Test};
use g_base::NoMemory;
use g_lines::Texts;
use g_name::{Local, Text};
use std::alloc::Global;

/// The label of a line: its first word, if that is a label. The line need not be in the language.
#[tactic(auto, using(crate::proofs::CutLemmas::cut_label))]
pub fn label_of(text: &[u8]) -> Option<Label>
    ensures { result ≡ label_in text.now }
{
    let (label, _) = split_label(without_front(text));
    label
}

/// Whether this is the label of a line, which need not be in the language.
#[tactic(auto, using(crate::proofs::CutLemmas::has_word))]
pub fn has_label(text: &[u8], label: &Label) -> bool
    ensures { result ≡ has_label label.now text.now }
{
    let line = without_front(text);
    // Most lines have no label, and their first byte shows it.
    match line.split_first() {
        Some((first, _)) if is_digit(*first) => {
            let (word, _) = split_word(line);
            word == label.as_slice()
        }
        _ => false,
    }
}

/// The label of a line without leading spaces, if it has one, and the command after it.
fn split_label(line: &[u8]) -> (Option<Label>, &[u8])
    ensures { IsCut line.now result.0 result.1.now }
{
    // Most lines have no label, and their first byte shows it.
    match line.split_first() {
        Some((first, _)) if is_digit(*first) => {
            let (word, command) = split_word(line);
            match Label::new(word) {
                Some(label) => (Some(label), command),
                None => (None, line),
            }
        }
        _ => (None, line),
    }
}

/// What a line says (`docs/DEFINITIONS.md`, "g_lang").
///
/// A text that is no line of the language is refused with the place where it goes wrong. Memory is allocated only for the result, so it can run out
/// only for a line of the language. The function calls itself once for each condition of the line; lines of the program have at most 240 bytes.
#[tactic(auto, using(crate::proofs::CutLemmas::reads_grammar, crate::proofs::CutLemmas::reads_waiting))]
pub fn parse_line(alloc: Global, text: &[u8]) -> Result<Line, LangFault>
    ensures grammar { Reads text.now result }
    ensures one { IsReadAs (how.reading text.now) result }
    ensures waiting { IfOk result (λ line. IfSome (command_said line.command) KeepsCommand) }
{
    let (label, command) = split_label(without_front(text));
    parse_command(alloc, text, label, command)
}

/// The same for the text after a line's label.
#[tactic(auto, using(crate::proofs::CutLemmas::verb_cut, crate::proofs::CutLemmas::verb_fault, crate::proofs::CutLemmas::goto_cut, crate::proofs::CutLemmas::cut_short))]
fn parse_command(
    alloc: Global,
    text: &[u8],
    label: Option<Label>,
    command: &[u8],
) -> Result<Line, LangFault>
    requires { IsCut (without_front text.now) label command.now }
    ensures { IsReadAs (how.reading text.now) result }
{
    // Most commands are a verb with parameters, or a GOTO; each of their bytes is read once.
    let (word, params) = split_word(command);
    if let Some(name) = verb_name(word) {
        return match parse_params(alloc, params, text.len() - params.len()) {
            Ok(rest) => Ok(Line {
                label,
                command: Command::Verb { name, rest },
            }),
            Err(fault) => Err(fault),
        };
    }
    if let Some(to) = goto_label(command) {
        return Ok(Line {
            label,
            command: Command::Goto(to),
        });
    }
    parse_by_steps(alloc, text)
}

/// The name of a verb, if a word is one.
fn verb_name(word: &[u8]) -> Option<Local>
    ensures { IfSome result (λ name. (is_verb word.now ≡ true) × (name ≡ word.now)) }
{
    if is_keyword(word) {
        return None;
    }
    Local::new(word)
}

/// The text of a verb's parameters, which begin at byte `from` of the line, without its trailing spaces.
fn parse_params(alloc: Global, params: &[u8], from: usize) -> Result<Rest, LangFault>
    requires { from + length params.now < 2 ^ 64 }
    ensures { ReadsParams from params.now result }
{
    if let Some(place) = wrong_in_params(params, from) {
        return Err(LangFault::BadLine(place));
    }
    match Rest::new(alloc, without_back(params)) {
        Ok(rest) => Ok(rest),
        Err(NoMemory) => Err(LangFault::NoMemory),
    }
}

/// The label of a GOTO without trailing spaces. `None` doesn't mean that the command is no GOTO.
fn goto_label(command: &[u8]) -> Option<Label>
    ensures { IfSome result (λ label. (how.behind (codes "GOTO ") command.now ≡ Some label) × (is_label label ≡ true)) }
{
    match behind(b"GOTO ", command) {
        Some(label) => Label::new(label),
        None => None,
    }
}

/// What any line says: first checks byte by byte whether it goes wrong.
fn parse_by_steps(alloc: Global, text: &[u8]) -> Result<Line, LangFault>
    ensures { IsReadAs (how.reading text.now) result }
{
    if let Some(place) = wrong_by_steps(text) {
        return Err(LangFault::BadLine(place));
    }
    match read_line(alloc, trimmed(text)) {
        Ok(line) => Ok(line),
        Err(NoMemory) => Err(LangFault::NoMemory),
    }
}

/// Whether the verb of a line is INPUT, after whose line a document follows. Allocates nothing; a text that is no line of the language is no INPUT.
pub fn is_input_line(text: &[u8]) -> bool
    ensures { result ≡ is_input_said (how.reading text.now) }
{
    if wrong_place(text).is_some() {
        return false;
    }
    let line = trimmed(text);
    let (word, rest) = split_word(line);
    let command = if is_label(word) { rest } else { line };
    let (verb, _) = split_word(command);
    verb == b"INPUT".as_slice()
}

/// What a line of the language says, without the spaces at its ends.
#[tactic(auto, using(crate::proofs::CutLemmas::cut_trimmed, crate::proofs::CutLemmas::cut_commands))]
fn read_line(alloc: Global, text: &[u8]) -> Result<Line, NoMemory>
    requires { HasCommands text.now }
    ensures { IfOk result (λ line. line_said line ≡ how.read_trimmed text.now) }
{
    let (label, command) = split_label(text);
    let command = read_option(alloc, command)?;
    Ok(Line { label, command })
}

/// A command, or none.
fn read_option(alloc: Global, text: &[u8]) -> Result<Command, NoMemory>
    requires { text.now ≢ [] → IsCommandText text.now }
    ensures { IfOk result (λ command. command_said command ≡ how.option_read text.now) }
{
    if text.is_empty() {
        return Ok(Command::Blank);
    }
    read_command(alloc, text)
}

/// A command.
fn read_command(alloc: Global, text: &[u8]) -> Result<Command, NoMemory>
    requires { IsCommandText text.now }
    ensures { (n : ℕ) → length text.now ≤ n
        → IfOk result (λ command. command_said command ≡ Some (how.command_read n text.now)) }
{
    if !may_be_keyword(text) {
        return read_verb(alloc, text);
    }
    if let Some(rest) = behind(b"IF ", text) {
        let (cond, inner) = split_condition(rest);
        let cond = read_cond(alloc, cond)?;
        let inner = read_command(alloc, inner)?;
        let inner = Box::new(alloc, inner)?;
        return Ok(Command::If { cond, inner });
    }
    if let Some(rest) = behind(b"WHENEVER ", text) {
        let (cond, command) = split_condition(rest);
        let cond = read_cond(alloc, cond)?;
        let command = Text::from_slice(alloc, command)?;
        return Ok(Command::Whenever { cond, command });
    }
    if let Some(label) = behind(b"GOTO ", text) {
        return Ok(Command::Goto(Label::new(label).unwrap()));
    }
    read_verb(alloc, text)
}

/// Whether a command may begin with IF, WHENEVER or GOTO. For most the first byte shows that it doesn't.
fn may_be_keyword(text: &[u8]) -> bool
    ensures { IsFalse result → (how.behind (codes "IF ") text.now ≡ None)
        × (how.behind (codes "WHENEVER ") text.now ≡ None) × (how.behind (codes "GOTO ") text.now ≡ None) }
{
    match text.split_first() {
        Some((first, _)) => *first == b'I' || *first == b'W' || *first == b'G',
        None => false,
    }
}

/// A verb with its parameters.
fn read_verb(alloc: Global, text: &[u8]) -> Result<Command, NoMemory>
    requires { IsVerbText text.now }
    ensures { IfOk result (λ command. command_said command ≡ Some (how.verb_read text.now)) }
{
    let (word, params) = split_word(text);
    let name = Local::new(word).unwrap();
    let rest = Rest::new(alloc, params)?;
    Ok(Command::Verb { name, rest })
}

/// The parameters of a verb, without the spaces around them, from their text.
pub fn read_params(alloc: Global, text: &[u8]) -> Result<Texts, NoMemory>
    ensures { IfOk result (λ params. params ≡ how.params_read text.now) }
{
    let mut params = Texts::new(alloc);
    let mut left = if text.is_empty() { None } else { Some(text) };
    while let Some(rest) = left {
        let (part, behind) = split_at_comma(rest);
        let param = Text::from_slice(alloc, trimmed(part))?;
        params.push(param)?;
        left = behind;
    }
    Ok(params)
}

/// The parameter of a verb, without the spaces around it, if it is the only one; allocates nothing.
pub fn only_param(text: &[u8]) -> Option<&[u8]>
    ensures { MatchOption result (length (how.params_read text.now) ≢ 1)
        (λ param. how.params_read text.now ≡ param.now ∷ []) }
{
    if text.is_empty() {
        return None;
    }
    match split_at_comma(text) {
        (param, None) => Some(trimmed(param)),
        (_, Some(_)) => None,
    }
}

/// Both parameters of a verb, without the spaces around them, if there are two; allocates nothing.
pub fn two_params(text: &[u8]) -> Option<(&[u8], &[u8])>
    ensures { MatchOption result (length (how.params_read text.now) ≢ 2)
        (λ both. how.params_read text.now ≡ both.0.now ∷ both.1.now ∷ []) }
{
    match split_at_comma(text) {
        (first, Some(rest)) => match split_at_comma(rest) {
            (second, None) => Some((trimmed(first), trimmed(second))),
            (_, Some(_)) => None,
        },
        (_, None) => None,
    }
}

/// A condition.
fn read_cond(alloc: Global, text: &[u8]) -> Result<Cond, NoMemory>
    ensures { IfOk result (λ cond. cond ≡ how.cond_read text.now) }
{
    match behind(b"NOT ", text) {
        Some(rest) => {
            let test = read_test(alloc, rest)?;
            Ok(Cond {
                negated: true,
                test,
            })
        }
        None => {
            let test = read_test(alloc, text)?;
            Ok(Cond {
                negated: false,
                test,
            })
        }
    }
}

/// The test of a condition.
fn read_test(alloc: Global, text: &[u8]) -> Result<Test, NoMemory>
    ensures { IfOk result (λ test. test ≡ how.test_read text.now) }
{
    if text == b"COMMAND ERROR".as_slice() {
        return Ok(Test::CommandError);
    }
    if text == b"FAILED".as_slice() {
        return Ok(Test::Failed);
    }
    if let Some(rest) = behind(b"HALTED(", text) {
        return Ok(Test::Halted(Text::from_slice(alloc, without_last(rest))?));
    }
    if let Some(rest) = behind(b"DELETED(", text) {
        return Ok(Test::Deleted(Text::from_slice(alloc, without_last(rest))?));
    }
    read_letter_test(alloc, text)
}

/// The test of a condition on a parameter.
fn read_letter_test(alloc: Global, text: &[u8]) -> Result<Test, NoMemory>
    ensures { IfOk result (λ test. test ≡ how.letter_test_read text.now) }
{
    if let Some(rest) = behind(b"PRESENT(%", text) {
        return Ok(Test::Present(letter_of(rest)));
    }
    if let Some(rest) = behind(b"ABSENT(%", text) {
        return Ok(Test::Absent(letter_of(rest)));
    }
    if let Some(rest) = behind(b"STRING(%", text) {
        let letter = letter_of(rest);
        let text = Text::from_slice(alloc, without_last(behind_equals(rest)))?;
        return Ok(Test::Equals { letter, text });
    }
    // Unreachable for a text of the language.
    Ok(Test::Failed)
}

/// A parameter's letter.
fn letter_of(text: &[u8]) -> u8
    ensures { result ≡ how.letter_of text.now }
{
    match text {
        [letter, ..] => *letter,
        // Unreachable for a text of the language.
        [] => b'A',
    }
}

/// The text after a letter and `)=(`.
fn behind_equals(text: &[u8]) -> &[u8]
    ensures { result.now ≡ how.behind_equals text.now }
{
    match text {
        [_, _, _, _, rest @ ..] => rest,
        _ => &[],
    }
}
