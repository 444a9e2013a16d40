//! Each call once, on a file of user 0 to which more and more users get access.
use g_trap::{Mode, Modes, Traps, TrapsFull};

#[test]
fn ample(rt: HostRuntime) {
    for (mode, bits) in [
        (Mode::Read, 16u8),
        (Mode::Write, 8),
        (Mode::Append, 4),
        (Mode::Execute, 2),
        (Mode::Erase, 1),
    ] {
        assert!(rt; Modes::only(mode).bits() == bits);
        assert!(rt; Modes::all().contains(mode) && !Modes::none().contains(mode));
    }
    assert!(rt; Modes::from_bits(32) == None);
    let read = Modes::only(Mode::Read);
    let changes = Modes::from_bits(13).expect(&rt, "13 is a set");

    let mut traps = Traps::fresh();
    assert!(rt; traps.allows(0, 0, Mode::Erase) && !traps.allows(0, 2, Mode::Read));
    assert!(rt; traps.go(0, 2, read) == Ok(()));
    assert!(rt; traps.allows(0, 2, Mode::Read) && !traps.allows(0, 2, Mode::Write));
    assert!(rt; traps.go(0, 1, changes) == Ok(()));
    assert!(rt; traps.others() == [(1, changes), (2, read)].as_slice());
    for user in 3..9u8 {
        assert!(rt; traps.go(0, user, read) == Ok(()));
    }
    assert!(rt; traps.go(0, 9, Modes::none()) == Ok(()));
    assert!(rt; traps.go(0, 9, read) == Err(TrapsFull));
    assert!(rt; traps.modes_of(0, 9) == Modes::none());
    assert!(rt; traps.go(0, 2, changes) == Ok(()));
    assert!(rt; traps.modes_of(0, 2).bits() == 29);
    traps.stop(0, 1, changes);
    assert!(rt; traps.go(0, 9, read) == Ok(()));
    traps.stop(0, 0, read);
    assert!(rt; traps.owner_modes().bits() == 15);

    let same = Traps::of(traps.owner_modes(), traps.others());
    assert!(rt; same == Some(traps.copy()));
    assert!(rt; Traps::of(read, &[(2, read), (1, read)]) == None);
    assert!(rt; Traps::of(read, &[(2, Modes::none())]) == None);
}
