//! Rows of numbers.
use std::process::Abort;

/// The numbers of a row, at most 16, filled up with zeros. They are written in octal or in decimal, as the base says.
pub(crate) fn numbers(rt: &impl Abort, base: u32, row: &str) -> [u32; 16] {
    assert!(rt; base == 8 || base == 10);
    let mut numbers = [0; 16];
    let mut count = 0;
    for word in row.split_whitespace() {
        assert!(rt; count < 16, "{row}");
        numbers[count] = u32::from_str_radix(word, base).expect(rt, "a number");
        count += 1;
    }
    numbers
}
