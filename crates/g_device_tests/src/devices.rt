//! The contents of real files for each adapter, which no clause can state: compared with bytes written out manually, read by `std::fs`.
mod disc;
mod rack;
mod streams;

use g_devices::{open_image, open_rack, texts_of, words_of};
use g_disc::Disc;
use g_tape::Tapes;
use std::fs::{self, File};
use std::io;

/// Creates a file of this many zeros.
fn make(rt: &HostRuntime, name: &str, bytes: u64) -> io::Result<()> {
    File::create(rt, name)?.set_len(bytes)
}

/// The length of a file.
fn len_of(rt: &HostRuntime, name: &str) -> io::Result<u64> {
    Ok(fs::metadata(rt, name)?.len())
}

/// Each call that takes memory, once with ample memory.
#[test]
fn ample(rt: HostRuntime) {
    let words = words_of(&rt).expect(&rt, "words");
    let texts = texts_of(rt.alloc(), &words).expect(&rt, "texts");
    assert!(rt; texts.len() == words.len());
    let image = open_image(&rt, "g_devices_ample.disc").expect(&rt, "an image");
    assert!(rt; image.size() == 4_096);
    let rack = open_rack(&rt, "g_devices_ample.tapes").expect(&rt, "a rack");
    assert!(rt; rack.reels() == 2);
    fs::remove_file(&rt, "g_devices_ample.disc").expect(&rt, "a file");
    fs::remove_dir_all(&rt, "g_devices_ample.tapes").expect(&rt, "a folder");
}
