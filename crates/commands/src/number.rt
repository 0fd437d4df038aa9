//! Numbers: how bytes spell one.
ghost use Rattle.std.specs.Prelude.{◌≡◌, ◌≤◌, length, IfSome, All, true};
ghost use Rattle.std.specs.List.{list_all};
ghost use Rattle.commands.specs.Number.{is_digit, is_number, value_of_digits, spelled_digits, spelled_number, spelled_code, spelled_signed, IsDigit};

use flow_rules::UNBOUNDED;

/// The most digits of a number.
pub const MOST_DIGITS: usize = 19;

/// The number that the bytes spell: 1 to 19 digits, up to 2^63-1.
#[tactic(auto, unfolding(crate::specs::Number::spelled_number))]
pub fn parse_number(bytes: &[u8]) -> Option<u64>
    ensures value { result ≡ spelled_number bytes.now }
    ensures bounded { IfSome result (λ n. n ≤ UNBOUNDED) }
{
    let value = parse_digits(bytes)?;
    if value <= UNBOUNDED {
        Some(value)
    } else {
        None
    }
}

/// The code of an error that the bytes spell: 1 to 19 digits, up to 2^32-1.
#[tactic(auto, unfolding(crate::specs::Number::spelled_code))]
pub fn parse_code(bytes: &[u8]) -> Option<u32>
    ensures { result ≡ spelled_code bytes.now }
{
    u32::try_from(parse_digits(bytes)?).ok()
}

/// The number that the bytes spell, with a `-` or without: 1 to 19 digits, from -2^63 to 2^63-1.
#[tactic(auto, unfolding(crate::specs::Number::spelled_number, crate::specs::Number::spelled_signed))]
pub fn parse_signed(bytes: &[u8]) -> Option<i64>
    ensures { result ≡ spelled_signed bytes.now }
{
    let (first, digits) = bytes.split_first()?;
    if *first == b'-' {
        0_i64.checked_sub_unsigned(parse_digits(digits)?)
    } else {
        i64::try_from(parse_digits(bytes)?).ok()
    }
}

/// The number that 1 to 19 digits spell.
#[tactic(auto, unfolding(crate::specs::Number::spelled_digits))]
pub fn parse_digits(bytes: &[u8]) -> Option<u64>
    ensures { result ≡ spelled_digits bytes.now }
{
    if is_number(bytes) {
        Some(value_of(bytes))
    } else {
        None
    }
}

fn is_number(bytes: &[u8]) -> bool
    ensures value { result ≡ is_number bytes.now }
    ensures short { result ≡ true → length bytes.now ≤ MOST_DIGITS }
    ensures digits { result ≡ true → All IsDigit bytes.now }
{
    1 <= bytes.len() && bytes.len() <= MOST_DIGITS && are_digits(bytes)
}

fn are_digits(bytes: &[u8]) -> bool
    ensures value { result ≡ list_all is_digit bytes.now }
    ensures digits { result ≡ true → All IsDigit bytes.now }
{
    bytes.iter().all(|byte| *byte >= b'0' && *byte <= b'9')
}

#[tactic(auto, using(crate::proofs::Digits::more_digits))]
fn value_of(digits: &[u8]) -> u64
    requires short { length digits.now ≤ MOST_DIGITS }
    requires digits { All IsDigit digits.now }
    ensures { result ≡ value_of_digits digits.now }
{
    let mut value = 0;
    for digit in digits {
        value = 10 * value + u64::from(*digit - b'0');
    }
    value
}
