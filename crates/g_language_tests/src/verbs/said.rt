//! The action of a verb in words, so that tables can hold it.
use g_base::NoMemory;
use g_lines::Texts;
use g_name::{Local, Path, Text, User};
use g_peri::{Kind, Unit};
use g_plain::BudgetKind;
use g_verbs::Action;
use std::alloc::Global;

/// A value of an action.
#[derive(Clone, Copy)]
enum Value<'a> {
    File(&'a Path),
    User(Option<&'a User>),
    Local(&'a Local),
    Number(Option<u64>),
    Kind(BudgetKind),
    Unit(Unit),
    Letter(u8),
    Text(Option<&'a [u8]>),
    Texts(&'a Texts),
}

/// The verb, followed by the values of its action, in order, each after a space: a file as a path, a user without its colon, a local name, a number,
/// a budget by its word, a unit without its star, a letter, a text between `<` and `>`. An optional value that is absent leaves nothing. Modes are
/// the sum of their numbers.
pub fn said(alloc: Global, action: &Action) -> Result<Text, NoMemory> {
    let mut said = Text::new(alloc);
    push_said(alloc, &mut said, action)?;
    Ok(said)
}

/// A verb with files; the other functions handle verbs without files.
fn push_said(alloc: Global, said: &mut Text, action: &Action) -> Result<(), NoMemory> {
    match action {
        Action::Input { file } => push(alloc, said, b"INPUT", &[Value::File(file)]),
        Action::Copy { from, to } => {
            push(alloc, said, b"COPY", &[Value::File(from), Value::File(to)])
        }
        Action::Append { from, to } => {
            push(
                alloc,
                said,
                b"APPEND",
                &[Value::File(from), Value::File(to)],
            )
        }
        Action::Erase { file } => push(alloc, said, b"ERASE", &[Value::File(file)]),
        Action::Rename { file, to } => {
            push(
                alloc,
                said,
                b"RENAME",
                &[Value::File(file), Value::Local(to)],
            )
        }
        Action::ListFile { file } => push(alloc, said, b"LISTFILE", &[Value::File(file)]),
        Action::Retrieve { file } => push(alloc, said, b"RETRIEVE", &[Value::File(file)]),
        Action::Load { file } => push(alloc, said, b"LOAD", &[Value::File(file)]),
        Action::Plan { from, to } => {
            push(alloc, said, b"PLAN", &[Value::File(from), Value::File(to)])
        }
        Action::Assign { unit, file } => {
            push(
                alloc,
                said,
                b"ASSIGN",
                &[Value::Unit(*unit), Value::File(file)],
            )
        }
        _ => push_said_of_users(alloc, said, action),
    }
}

/// A verb with users; the other functions handle verbs without users.
fn push_said_of_users(alloc: Global, said: &mut Text, action: &Action) -> Result<(), NoMemory> {
    match action {
        Action::ListDir { user } => push(alloc, said, b"LISTDIR", &[Value::User(user.as_ref())]),
        Action::TrapGo { file, user, modes } => {
            let modes = Some(u64::from(modes.bits()));
            push(
                alloc,
                said,
                b"TRAPGO",
                &[
                    Value::File(file),
                    Value::User(Some(user)),
                    Value::Number(modes),
                ],
            )
        }
        Action::TrapStop { file, user, modes } => {
            let modes = Some(u64::from(modes.bits()));
            push(
                alloc,
                said,
                b"TRAPSTOP",
                &[
                    Value::File(file),
                    Value::User(Some(user)),
                    Value::Number(modes),
                ],
            )
        }
        Action::TrapCheck { file, user } => {
            push(
                alloc,
                said,
                b"TRAPCHECK",
                &[Value::File(file), Value::User(user.as_ref())],
            )
        }
        Action::NewUser {
            user,
            space,
            time,
            money,
        } => {
            push(
                alloc,
                said,
                b"NEWUSER",
                &[
                    Value::User(Some(user)),
                    Value::Number(Some(*space)),
                    Value::Number(Some(*time)),
                    Value::Number(*money),
                ],
            )
        }
        Action::Budget { user, kind, amount } => {
            push(
                alloc,
                said,
                b"BUDGET",
                &[
                    Value::User(Some(user)),
                    Value::Kind(*kind),
                    Value::Number(Some(*amount)),
                ],
            )
        }
        _ => push_said_of_jobs(alloc, said, action),
    }
}

/// A verb of programs and jobs, or a macro.
fn push_said_of_jobs(alloc: Global, said: &mut Text, action: &Action) -> Result<(), NoMemory> {
    match action {
        Action::Enter { n } => push(alloc, said, b"ENTER", &[Value::Number(Some(*n))]),
        Action::Resume => said.extend(b"RESUME"),
        Action::Release { unit } => push(alloc, said, b"RELEASE", &[Value::Unit(*unit)]),
        Action::Delete => said.extend(b"DELETE"),
        Action::SetParam { letter, text } => {
            let text = text.to_text(alloc)?;
            let text = match &text {
                Some(text) => Some(text.as_slice()),
                None => None,
            };
            push(
                alloc,
                said,
                b"SETPARAM",
                &[Value::Letter(*letter), Value::Text(text)],
            )
        }
        Action::Display { text } => {
            push(
                alloc,
                said,
                b"DISPLAY",
                &[Value::Text(Some(text.as_slice()))],
            )
        }
        Action::EndJob => said.extend(b"ENDJOB"),
        Action::Macro { name, params } => {
            let params = params.list(alloc)?;
            push(
                alloc,
                said,
                b"MACRO",
                &[Value::Local(name), Value::Texts(&params)],
            )
        }
        _ => Ok(()),
    }
}

fn push(alloc: Global, said: &mut Text, verb: &[u8], values: &[Value]) -> Result<(), NoMemory> {
    said.extend(verb)?;
    for value in values {
        push_value(alloc, said, value)?;
    }
    Ok(())
}

fn push_value(alloc: Global, said: &mut Text, value: &Value) -> Result<(), NoMemory> {
    match value {
        Value::File(file) => push_file(alloc, said, file),
        Value::User(Some(user)) => push_word(said, user.as_slice()),
        Value::Local(name) => push_word(said, name.as_slice()),
        Value::Number(Some(number)) => push_number(alloc, said, b" ", *number),
        Value::Kind(kind) => push_word(said, kind_word(*kind)),
        Value::Unit(unit) => push_number(alloc, said, unit_word(unit.kind), u64::from(unit.number)),
        Value::Letter(letter) => push_word(said, &[*letter]),
        Value::Text(Some(text)) => push_text(said, text),
        Value::Texts(texts) => push_texts(said, texts),
        Value::User(None) | Value::Number(None) | Value::Text(None) => Ok(()),
    }
}

fn push_word(said: &mut Text, word: &[u8]) -> Result<(), NoMemory> {
    said.extend(b" ")?;
    said.extend(word)
}

fn push_text(said: &mut Text, text: &[u8]) -> Result<(), NoMemory> {
    said.extend(b" <")?;
    said.extend(text)?;
    said.extend(b">")
}

fn push_texts(said: &mut Text, texts: &Texts) -> Result<(), NoMemory> {
    for text in texts.as_slice() {
        push_text(said, text.as_slice())?;
    }
    Ok(())
}

fn push_number(alloc: Global, said: &mut Text, before: &[u8], number: u64) -> Result<(), NoMemory> {
    let digits = number.to_string(alloc)?;
    said.extend(before)?;
    said.extend(digits.as_bytes())
}

/// The text of a file's path, with the parts that it has.
fn push_file(alloc: Global, said: &mut Text, file: &Path) -> Result<(), NoMemory> {
    said.extend(b" ")?;
    if let Some(user) = &file.user {
        said.extend(b":")?;
        said.extend(user.as_slice())?;
        said.extend(b".")?;
    }
    said.extend(file.local.as_slice())?;
    push_version(alloc, said, file)
}

fn push_version(alloc: Global, said: &mut Text, file: &Path) -> Result<(), NoMemory> {
    match (&file.generation, &file.lang) {
        (Some(generation), None) => push_number(alloc, said, b"(", u64::from(*generation))?,
        (Some(generation), Some(lang)) => {
            push_number(alloc, said, b"(", u64::from(*generation))?;
            said.extend(b"/")?;
            said.extend(lang.as_slice())?;
        }
        (None, Some(lang)) => {
            said.extend(b"(/")?;
            said.extend(lang.as_slice())?;
        }
        (None, None) => return Ok(()),
    }
    said.extend(b")")
}

/// The word of a budget.
fn kind_word(kind: BudgetKind) -> &'static [u8] {
    match kind {
        BudgetKind::Space => b"SPACE",
        BudgetKind::Time => b"TIME",
        BudgetKind::Money => b"MONEY",
    }
}

/// The word of a unit's kind, after a space.
fn unit_word(kind: Kind) -> &'static [u8] {
    match kind {
        Kind::Cr => b" CR",
        Kind::Lp => b" LP",
        Kind::Tp => b" TP",
    }
}
