//! How much memory a process has resident, as the lines of Linux's `/proc/self/status` say it.

/// How the line with that number begins.
const RESIDENT: &[u8] = b"VmRSS:";

/// Returns the number that the first digits of a text spell, or `None` if it has none or is too
/// large.
fn first_number(text: &[u8]) -> Option<u64> {
    let begin = text.iter().position(|byte| byte.is_ascii_digit())?;
    let mut number = 0u64;
    for byte in text[begin..]
        .iter()
        .take_while(|byte| byte.is_ascii_digit())
    {
        number = number.checked_mul(10)?;
        number = number.checked_add(u64::from(byte.wrapping_sub(b'0')))?;
    }
    Some(number)
}

/// Returns how many bytes are resident by the lines of the file, one of which says it in KiB, or
/// `None` if none does.
pub fn resident_in(lines: &[u8]) -> Option<u64> {
    let line = lines
        .split(|byte| *byte == b'\n')
        .find(|line| line.starts_with(RESIDENT))?;
    first_number(line)?.checked_mul(1_024)
}
