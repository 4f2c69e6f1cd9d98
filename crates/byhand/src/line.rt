// The numbers of a line of the script: words with one space between them, the first a command, the others numbers.

// Words so far apart are read as one number; no line needs as many.
const WORDS: usize = 64;

// The digits stand in a row of sixteen that 0 begins.
const ROW: u8 = 16;

fn with_digit(digits: u32, byte: u8) -> u32 {
    digits.wrapping_mul(10).wrapping_add(u32::from(byte % ROW))
}

// The number behind so many spaces; 0 where there is none. Below zero it stands for itself and 2^32 more.
fn number(line: &[u8], spaces: usize) -> u32 {
    let mut digits = 0;
    let mut below = false;
    let words = line.split(|byte| *byte == b' ');
    for byte in words.skip(spaces).step_by(WORDS).flatten() {
        match byte {
            b'-' => below = true,
            _ => digits = with_digit(digits, *byte),
        }
    }
    if below { digits.wrapping_neg() } else { digits }
}

pub fn numbers(line: &[u8]) -> [u32; 5] {
    [1, 2, 3, 4, 5].map(|spaces| number(line, spaces))
}
