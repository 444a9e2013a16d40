//! The image of a disc.
use super::{len_of, make};
use g_base::{Block, WriteFailed};
use g_devices::open_image;
use g_disc::Disc;
use std::fs;
use std::io::{self, ErrorKind};

/// Whether an image holds these blocks, and zeros otherwise.
fn holds(rt: &HostRuntime, name: &str, blocks: &[(usize, Block)]) -> io::Result<bool> {
    let mut image = vec![in rt.alloc(); 0; 2_097_152]?;
    for (k, block) in blocks {
        if *k >= 4_096 || image.len() != 2_097_152 {
            return Ok(false);
        }
        image[512 * *k..512 * *k + 512].copy_from_slice(block);
    }
    Ok(fs::read(rt, name)? == image)
}

#[test]
fn blocks_lie_where_they_belong(rt: HostRuntime) {
    let name = "g_devices_blocks.disc";
    let mut disc = open_image(&rt, name).expect(&rt, "an image");
    assert!(rt; disc.size() == 4_096);
    assert!(rt; holds(&rt, name, &[]).expect(&rt, "a file"));
    assert!(rt; disc.write(0, &[1; 512]) == Ok(()));
    assert!(rt; disc.write(7, &[8; 512]) == Ok(()));
    assert!(rt; disc.write(2_177, &[130; 512]) == Ok(()));
    disc.arm(2);
    assert!(rt; disc.write(8, &[5; 512]) == Ok(()));
    assert!(rt; disc.write(7, &[6; 512]) == Err(WriteFailed));
    let mut torn = [8; 512];
    torn[..256].copy_from_slice(&[6; 256]);
    let blocks = [(0, [1; 512]), (7, torn), (8, [5; 512]), (2_177, [130; 512])];
    assert!(rt; holds(&rt, name, &blocks).expect(&rt, "a file"));
    let mut block = [0; 512];
    disc.read(7, &mut block).expect(&rt, "a read");
    assert!(rt; block == torn);
    fs::remove_file(&rt, name).expect(&rt, "a file");
}

/// For any reads and writes before, a block is read as it was last written, and at the end the image holds it.
#[test]
fn blocks_are_read_as_they_were_written_last(rt: HostRuntime) {
    let name = "g_devices_last.disc";
    let mut disc = open_image(&rt, name).expect(&rt, "an image");
    let mut last = [0; 200];
    // Runs of up to 128 blocks, alternately written and read, at scattered places.
    for round in 0..120u8 {
        let number = (u32::from(round) * 25_717 + 377) % 65_521;
        let from = number % 200;
        for k in from..200u32.min(from + number / 200 % 128) {
            let mut block = [round; 512];
            assert!(rt; 2_200 + k < disc.size());
            if round % 2 == 0 {
                disc.write(2_200 + k, &block).expect(&rt, "a write");
                last[k as usize] = round;
            } else {
                disc.read(2_200 + k, &mut block).expect(&rt, "a read");
                assert!(rt;
                    block == [last[k as usize]; 512],
                    "block {k} in round {round}"
                );
            }
        }
    }
    disc.finish().expect(&rt, "a finish");
    let image = fs::read(&rt, name).expect(&rt, "a file");
    for (k, byte) in last.iter().enumerate() {
        let at = 512 * (2_200 + k);
        assert!(rt;
            image.get(at..at + 512) == Some([*byte; 512].as_slice()),
            "block {k}"
        );
    }
    fs::remove_file(&rt, name).expect(&rt, "a file");
}

/// The leftover of a run that was interrupted while creating the image doesn't hinder the next run, and is no image; anything else of that name is
/// left unchanged.
#[test]
fn an_image_is_one_runs_alone(rt: HostRuntime) {
    let (name, unready) = ("g_devices_taken.disc", "g_devices_taken.disc.new");
    fs::write(&rt, unready, "cut").expect(&rt, "a file");
    let Err(other) = open_image(&rt, name) else {
        panic!(rt; "an image over another file");
    };
    assert!(rt; other.kind() == ErrorKind::AlreadyExists);
    assert!(rt; fs::read(&rt, unready).expect(&rt, "a file").as_slice() == b"cut".as_slice());
    make(&rt, unready, 700).expect(&rt, "a file");
    let disc = open_image(&rt, name).expect(&rt, "an image");
    assert!(rt; !fs::exists(&rt, unready).expect(&rt, "an answer"));
    assert!(rt; holds(&rt, name, &[]).expect(&rt, "a file"));
    let Err(taken) = open_image(&rt, name) else {
        panic!(rt; "an image of two runs");
    };
    assert!(rt; taken.kind() == ErrorKind::WouldBlock);
    drop(disc);
    assert!(rt; open_image(&rt, name).is_ok());
    fs::remove_file(&rt, name).expect(&rt, "a file");
}

/// The length of a file in bytes, and whether it is an image.
static SIZES: [(u64, bool); 7] = [
    (0, false),
    (2_177 * 512, false),
    (2_178 * 512 - 1, false),
    (2_178 * 512, true),
    (2_178 * 512 + 1, false),
    (1_048_576 * 512, true),
    (1_048_577 * 512, false),
];

#[test]
fn sizes_that_no_disc_has_are_refused(rt: HostRuntime) {
    let name = "g_devices_sizes.disc";
    for (bytes, fits) in &SIZES {
        make(&rt, name, *bytes).expect(&rt, "a file");
        assert!(rt; open_image(&rt, name).is_ok() == *fits, "{bytes} bytes");
        let len = len_of(&rt, name).expect(&rt, "a file");
        assert!(rt; len == *bytes, "{bytes} bytes");
    }
    fs::remove_file(&rt, name).expect(&rt, "a file");
}
