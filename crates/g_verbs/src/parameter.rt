//! One parameter of each form; none of these functions allocates memory.
ghost use Rattle.std.specs.Prelude.{◌≡◌, None, true, IfSome};
ghost use Rattle.g_lines.specs.Numbers.{number_read};
ghost use Rattle.g_name.specs.Grammar.{is_word};
ghost use Rattle.g_name.specs.Names.{path_name};
ghost use Rattle.g_verbs.specs.Ranges.{IsGeneration};
ghost use Rattle.g_verbs.specs.Tables.{IsBeforeDigit};
ghost use Rattle.g_verbs.specs.VerbReader as how;
ghost use Rattle.g_verbs.specs.Parameters as parameters;

use g_lang::{behind, is_param_letter};
use g_lines::number;
use g_monitor::mode_word;
use g_name::{Local, Path, User, parse_path};
use g_peri::{Kind, Unit};
use g_plain::BudgetKind;
use g_trap::Mode;

/// All modes.
const MODES: [Mode; 5] = [
    Mode::Read,
    Mode::Write,
    Mode::Append,
    Mode::Execute,
    Mode::Erase,
];

/// The path of a file.
pub(crate) fn file(text: &[u8]) -> Option<Path>
    ensures { result ≡ how.file_read text.now }
{
    match short_file(text) {
        Some(path) => Some(path),
        None => parse_path(text).ok(),
    }
}

/// The path of a text that is a local name, with or without a generation of one digit, as most are. `None` doesn't mean that the text is no path.
#[tactic(auto, using(crate::proofs::ParamLemmas::digit_range, crate::proofs::ParamLemmas::file_of_word))]
fn short_file(text: &[u8]) -> Option<Path>
    ensures { IfSome result (λ path. parameters.IsFile path text.now) }
{
    match split_digit(text) {
        Some((local, generation)) => named_file(local, Some(generation)),
        None => named_file(text, None),
    }
}

/// The part before a generation of one digit in brackets, and the generation.
fn split_digit(text: &[u8]) -> Option<(&[u8], u16)>
    ensures { IfSome result (λ parts. IsBeforeDigit text.now parts.0.now parts.1) }
{
    match text {
        [local @ .., open, digit, close] => {
            if *open == b'(' && *close == b')' && (b'1'..=b'9').contains(digit) {
                Some((local, u16::from(*digit - b'0')))
            } else {
                None
            }
        }
        _ => None,
    }
}

/// The path of a local name with this generation, if the word is one.
fn named_file(word: &[u8], generation: Option<u16>) -> Option<Path>
    requires { IsGeneration generation }
    ensures { IfSome result (λ path. (is_word word.now ≡ true)
        × (path_name path ≡ record { user = None; local = word.now; generation = generation; lang = None })) }
{
    match Local::new(word) {
        Some(local) => Some(Path {
            user: None,
            local,
            generation,
            lang: None,
        }),
        None => None,
    }
}

/// A user with its colon.
pub(crate) fn user(text: &[u8]) -> Option<User>
    ensures { result ≡ how.user_read text.now }
{
    User::parse(text).ok()
}

/// A local name.
pub(crate) fn local(text: &[u8]) -> Option<Local>
    ensures { result ≡ how.local_read text.now }
{
    Local::new(text)
}

/// An amount of a budget: its word, a space and a number up to the budget's maximum.
pub(crate) fn amount(kind: BudgetKind, text: &[u8]) -> Option<u64>
    ensures { result ≡ how.amount_read kind text.now }
{
    match behind(front(kind), text) {
        Some(digits) => number(digits, most(kind)),
        None => None,
    }
}

/// An amount of any budget.
pub(crate) fn budget(text: &[u8]) -> Option<(BudgetKind, u64)>
    ensures { result ≡ how.budget_read text.now }
{
    if let Some(amount) = amount(BudgetKind::Space, text) {
        return Some((BudgetKind::Space, amount));
    }
    if let Some(amount) = amount(BudgetKind::Time, text) {
        return Some((BudgetKind::Time, amount));
    }
    match amount(BudgetKind::Money, text) {
        Some(amount) => Some((BudgetKind::Money, amount)),
        None => None,
    }
}

/// The part of an amount before its number.
fn front(kind: BudgetKind) -> &'static [u8]
    ensures { result.now ≡ how.kind_front kind }
{
    match kind {
        BudgetKind::Space => b"SPACE ",
        BudgetKind::Time => b"TIME ",
        BudgetKind::Money => b"MONEY ",
    }
}

/// The maximum of a budget.
fn most(kind: BudgetKind) -> u64
    ensures { result ≡ parameters.most_of kind }
{
    match kind {
        BudgetKind::Space => 65_535,
        BudgetKind::Time | BudgetKind::Money => 1_000_000_000,
    }
}

/// A unit: its kind and its digit.
pub(crate) fn unit(text: &[u8]) -> Option<Unit>
    ensures { result ≡ how.unit_read text.now }
{
    if let Some(digit) = behind(b"*CR", text) {
        return digit_unit(Kind::Cr, digit);
    }
    if let Some(digit) = behind(b"*LP", text) {
        return digit_unit(Kind::Lp, digit);
    }
    match behind(b"*TP", text) {
        Some(digit) => digit_unit(Kind::Tp, digit),
        None => None,
    }
}

/// The unit of a kind with this digit.
fn digit_unit(kind: Kind, text: &[u8]) -> Option<Unit>
    ensures { result ≡ how.digit_unit kind text.now }
{
    match text {
        [digit] if (b'0'..=b'7').contains(digit) => Some(Unit {
            kind,
            number: *digit - b'0',
        }),
        _ => None,
    }
}

/// A mode by its word.
pub(crate) fn mode(text: &[u8]) -> Option<Mode>
    ensures { result ≡ how.mode_read text.now }
{
    MODES.iter().copied().find(|mode| mode_word(*mode) == text)
}

/// A letter, `A` to `X`.
pub(crate) fn letter(text: &[u8]) -> Option<u8>
    ensures { result ≡ how.letter_read text.now }
{
    match text {
        [letter] if is_param_letter(*letter) => Some(*letter),
        _ => None,
    }
}

/// A number from 0 to 9.
pub(crate) fn digit(text: &[u8]) -> Option<u64>
    ensures { result ≡ number_read 9 text.now }
{
    number(text, 9)
}
