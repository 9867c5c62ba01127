//! Numbers of options.

ghost use Rattle.std.specs.Prelude.{◌≡◌};
ghost use Rattle.run_options.specs.Numbers.{number_of};

/// The number that a word is: one or more decimal digits, of a value below 2^32. Leading zeros may stand there; a sign may not. `None`:
/// it is no such word.
pub fn read_number(word: &str) -> Option<u32>
    // A word is a number exactly where it is one or more digits with a value of 32 bits, and it is that number.
    ensures { result ≡ number_of word.now }
{
    if word.is_empty() {
        return None;
    }
    let mut value: u64 = 0;
    'digits: for byte in word.as_bytes() {
        if !byte.is_ascii_digit() {
            return None;
        }
        value = value * 10 + u64::from(byte.saturating_sub(b'0'));
        // Without this test a long run of digits would wrap.
        if value > u64::from(u32::MAX) {
            return None;
        }
    }
    Some(value as u32)
}
