//! A verb with ample memory.
use g_lang::Rest;
use g_name::Local;
use g_verbs::{Action, read_verb};
use std::test::Fail;

/// Whether this is the expected action.
fn is_asked(action: &Action) -> bool {
    match action {
        Action::NewUser {
            user,
            space,
            time,
            money,
        } => {
            user.as_slice() == b"ANNE".as_slice()
                && *space == 65_535
                && *time == 0
                && *money == Some(1_000_000_000)
        }
        _ => false,
    }
}

/// A verb with four parameters, whose text takes memory.
#[test]
fn ample(rt: HostRuntime) -> Result<(), Fail> {
    let params = b":ANNE,SPACE 65535,TIME 0,MONEY 1000000000";
    let rest = Rest::new(rt.alloc(), params)?;
    let name = Local::new(b"NEWUSER").ok_or("no name")?;
    let action = read_verb(&name, rest)?;
    assert!(rt; is_asked(&action));
    Ok(())
}
