//! A rack in a folder.
use super::{len_of, make};
use g_base::Block;
use g_devices::open_rack;
use g_tape::{TapeFault, Tapes};
use std::fs;
use std::io::{self, ErrorKind};

/// The first bytes of a dump's mark, filled up with 7.
fn mark() -> Block {
    let mut block = [7; 512];
    block[..4].copy_from_slice(b"G3MK");
    block
}

#[test]
fn reels_end_where_they_were_written(rt: HostRuntime) {
    let (folder, reel) = ("g_devices_reels.tapes", "g_devices_reels.tapes/2.tape");
    let mut tapes = open_rack(&rt, folder).expect(&rt, "a rack");
    assert!(rt; tapes.reels() == 2 && tapes.serial(0) == 1 && tapes.serial(1) == 2);
    assert!(rt; tapes.capacity(2) == Ok(8_192));
    assert!(rt; tapes.length(2) == Ok(0) && !tapes.mounted(2));
    assert!(rt; tapes.write(8, 0, &[1; 512]) == Err(TapeFault::NoTape));
    assert!(rt; tapes.write(2, 0, &[1; 512]) == Err(TapeFault::NotMounted));
    tapes.mount(2).expect(&rt, "a reel");
    for k in 0..4 {
        assert!(rt; tapes.write(2, k, &[k as u8; 512]) == Ok(()));
        assert!(rt; len_of(&rt, reel).expect(&rt, "a file") == 512 * (u64::from(k) + 1));
    }
    // A write truncates the reel after it, and one that fails leaves half of its block.
    assert!(rt; tapes.write(2, 2, &mark()) == Ok(()));
    assert!(rt; len_of(&rt, reel).expect(&rt, "a file") == 1_536);
    tapes.arm(1);
    assert!(rt; tapes.write(2, 1, &[5; 512]) == Err(TapeFault::WriteFailed));
    assert!(rt; tapes.length(2) == Ok(2));
    let mut torn = [0; 1_024];
    torn[512..768].copy_from_slice(&[5; 256]);
    assert!(rt; fs::read(&rt, reel).expect(&rt, "a file").as_slice() == torn.as_slice());
    assert!(rt; tapes.read(2, 2, &mut [9; 512]) == Err(TapeFault::End));
    tapes.unmount(2).expect(&rt, "a reel");
    drop(tapes);
    // Another run finds the reels of this one.
    let mut tapes = open_rack(&rt, folder).expect(&rt, "a rack");
    assert!(rt; tapes.length(1) == Ok(0) && tapes.length(2) == Ok(2) && !tapes.mounted(2));
    tapes.mount(2).expect(&rt, "a reel");
    let mut block = [9; 512];
    tapes.read(2, 1, &mut block).expect(&rt, "a read");
    assert!(rt; block[255] == 5 && block[256] == 0);
    fs::remove_dir_all(&rt, folder).expect(&rt, "a folder");
}

/// For any reads and writes before, a block of a reel is read as it was last written.
#[test]
fn reels_are_read_as_they_were_written_last(rt: HostRuntime) {
    let folder = "g_devices_last.tapes";
    let mut tapes = open_rack(&rt, folder).expect(&rt, "a rack");
    let mut block = [0; 512];
    for serial in 1..=2 {
        tapes.mount(serial).expect(&rt, "a reel");
        for k in 0..100 {
            tapes
                .write(serial, k, &[serial as u8; 512])
                .expect(&rt, "a write");
        }
    }
    // Both reels are read in order, alternately, and are truncated in the middle of what was read ahead.
    for end in [90, 40, 15] {
        for serial in 1..=2 {
            for k in 0..end {
                tapes.read(serial, k, &mut block).expect(&rt, "a read");
                assert!(rt; block == [serial as u8; 512], "block {k} of reel {serial}");
            }
            tapes
                .write(serial, end / 2, &[9; 512])
                .expect(&rt, "a write");
            tapes
                .read(serial, end / 2, &mut block)
                .expect(&rt, "a read");
            assert!(rt; block == [9; 512]);
            assert!(rt; tapes.read(serial, end / 2 + 1, &mut block) == Err(TapeFault::End));
        }
    }
    fs::remove_dir_all(&rt, folder).expect(&rt, "a folder");
}

/// A reel that is secured has the same contents, mounted or not, in the run that wrote it and in the next one.
#[test]
fn secured_reels_hold_what_they_held(rt: HostRuntime) {
    let (folder, reel) = ("g_devices_secured.tapes", "g_devices_secured.tapes/2.tape");
    let mut tapes = open_rack(&rt, folder).expect(&rt, "a rack");
    assert!(rt; tapes.secure(8) == Err(TapeFault::NoTape));
    assert!(rt; tapes.secure(2) == Ok(()) && tapes.length(2) == Ok(0));
    tapes.mount(2).expect(&rt, "a reel");
    for k in 0..4 {
        assert!(rt; tapes.write(2, k, &[k as u8 + 1; 512]) == Ok(()));
    }
    assert!(rt; tapes.secure(2) == Ok(()) && tapes.length(2) == Ok(4));
    assert!(rt; tapes.write(2, 2, &mark()) == Ok(()));
    assert!(rt; tapes.secure(2) == Ok(()) && tapes.mounted(2));
    let mut held = [1; 1_536];
    held[512..1_024].copy_from_slice(&[2; 512]);
    held[1_024..].copy_from_slice(&mark());
    assert!(rt; fs::read(&rt, reel).expect(&rt, "a file").as_slice() == held.as_slice());
    drop(tapes);
    let mut tapes = open_rack(&rt, folder).expect(&rt, "a rack");
    assert!(rt; tapes.secure(2) == Ok(()) && tapes.length(2) == Ok(3) && !tapes.mounted(2));
    assert!(rt; fs::read(&rt, reel).expect(&rt, "a file").as_slice() == held.as_slice());
    fs::remove_dir_all(&rt, folder).expect(&rt, "a folder");
}

#[test]
fn a_rack_is_one_runs_alone(rt: HostRuntime) {
    let (folder, unready) = ("g_devices_taken.tapes", "g_devices_taken.tapes.new");
    // A leftover `.new` folder that isn't a run's is unchanged; that of an interrupted run is used.
    fs::create_dir(&rt, unready).expect(&rt, "a folder");
    make(&rt, "g_devices_taken.tapes.new/2.tape", 512).expect(&rt, "a file");
    let Err(other) = open_rack(&rt, folder) else {
        panic!(rt; "a rack over other files");
    };
    assert!(rt; other.kind() == ErrorKind::AlreadyExists);
    make(&rt, "g_devices_taken.tapes.new/2.tape", 0).expect(&rt, "a file");
    let tapes = open_rack(&rt, folder).expect(&rt, "a rack");
    assert!(rt; !fs::exists(&rt, unready).expect(&rt, "an answer"));
    let Err(taken) = open_rack(&rt, folder) else {
        panic!(rt; "a rack of two runs");
    };
    assert!(rt; taken.kind() == ErrorKind::WouldBlock);
    drop(tapes);
    assert!(rt; open_rack(&rt, folder).is_ok());
    // One file can't be two reels.
    fs::hard_link(
        &rt,
        "g_devices_taken.tapes/2.tape",
        "g_devices_taken.tapes/3.tape",
    )
    .expect(&rt, "a name");
    let Err(twice) = open_rack(&rt, folder) else {
        panic!(rt; "a file that is two reels");
    };
    assert!(rt; twice.kind() == ErrorKind::WouldBlock);
    fs::remove_dir_all(&rt, folder).expect(&rt, "a folder");
}

const FOLDER: &str = "g_devices_names.tapes";

/// Names that no reel has.
static NO_REELS: [&str; 7] = ["0", "01", "+3", "x", "1000000", "", "4.tape.bak"];

/// The length of a file in bytes, and whether it is a reel.
static SIZES: [(u64, bool); 4] = [
    (511, true),
    (8_192 * 512, true),
    (8_193 * 512 - 1, true),
    (8_193 * 512, false),
];

/// Creates a file in the folder, of this many zeros.
fn make_reel(rt: &HostRuntime, name: &str, bytes: u64) -> io::Result<()> {
    let path = format!(in rt.alloc(); "{FOLDER}/{name}.tape")?;
    make(rt, path.as_str(), bytes)
}

#[test]
fn only_reels_are_in_the_rack(rt: HostRuntime) {
    fs::create_dir(&rt, FOLDER).expect(&rt, "a folder");
    for name in &NO_REELS {
        make_reel(&rt, name, 7).expect(&rt, "a file");
    }
    for name in ["999999", "20", "3"] {
        make_reel(&rt, name, 512).expect(&rt, "a file");
    }
    let tapes = open_rack(&rt, FOLDER).expect(&rt, "a rack");
    assert!(rt; tapes.reels() == 3);
    assert!(rt; tapes.serial(0) == 3 && tapes.serial(1) == 20 && tapes.serial(2) == 999_999);
    drop(tapes);
    for (bytes, fits) in &SIZES {
        make_reel(&rt, "3", *bytes).expect(&rt, "a file");
        assert!(rt; open_rack(&rt, FOLDER).is_ok() == *fits, "{bytes} bytes");
        let len = len_of(&rt, "g_devices_names.tapes/3.tape").expect(&rt, "a file");
        assert!(rt; len == *bytes, "{bytes} bytes");
    }
    make_reel(&rt, "3", 0).expect(&rt, "a file");
    for serial in 102..=115u32 {
        let name = serial.to_string(rt.alloc()).expect(&rt, "memory");
        make_reel(&rt, name.as_str(), 0).expect(&rt, "a file");
        assert!(rt;
            open_rack(&rt, FOLDER).is_ok() == (serial < 115),
            "up to {serial}"
        );
    }
    fs::remove_dir_all(&rt, FOLDER).expect(&rt, "a folder");
}
