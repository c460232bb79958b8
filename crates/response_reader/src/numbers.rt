// The number that a head tells, found by comparing the head with the one that tells 0.
ghost use Rattle.std.specs.Prelude.{◌≡◌, ◌<◌, ◌≤◌, ◌^◌, ℕ, length};
ghost use Rattle.response_reader.specs.Numbers.{FirstDiffer, BeginsWithNumber, IsDigitsEnd, number_in_front};

use std::str;

/// The first place at which the bytes differ, or where one of them ends.
pub(crate) fn first_difference(one: &[u8], other: &[u8]) -> usize
    ensures within { result ≤ length one.now }
    ensures first { (place : ℕ) → FirstDiffer one.now other.now place → result ≡ place }
{
    let len = one.len().min(other.len());
    for i in 0..len {
        if one[i] != other[i] {
            return i;
        }
    }
    len
}

/// The number whose digits the bytes begin with.
pub fn leading_number(bytes: &[u8]) -> u64
    ensures told { result ≡ number_in_front bytes.now }
    ensures written { (n : ℕ) → n < 2 ^ 64 → BeginsWithNumber bytes.now n → result ≡ n }
{
    match str::from_utf8(&bytes[..digits_end(bytes)]) {
        Ok(digits) => digits.parse::<u64>().unwrap_or(0),
        Err(_) => 0,
    }
}

/// The place behind the digits at the front.
fn digits_end(bytes: &[u8]) -> usize
    ensures { IsDigitsEnd bytes.now result }
{
    for (i, byte) in bytes.iter().enumerate() {
        if !byte.is_ascii_digit() {
            return i;
        }
    }
    bytes.len()
}
