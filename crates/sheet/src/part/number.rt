// The numbers that parts write.
ghost use Rattle.std.specs.Prelude.{◌≡◌, ◌≤◌, ℕ, ℤ, length, MatchOption};
ghost use Rattle.std.specs.Str.Parse.{AllDigits, digits_value};
ghost use Rattle.sheet.specs.Numerals.{Writes, WritesSigned};
ghost use Rattle.sheet.specs.Outcomes.{IsNumberByRule, ReadsNumber, ReadsSigned, IsWithin};

use super::Part;
use units::fault::Fault;
use units::rule::Rule;

// What digits come to.
fn digits(bytes: &[u8]) -> Option<u64>
    requires { length bytes.now ≤ 11 }
    ensures { MatchOption result (AllDigits 10 bytes.now → ⊥) (λ n.
        AllDigits 10 bytes.now × (n ≡ digits_value 10 bytes.now)) }
{
    let mut value: u64 = 0;
    for byte in bytes {
        if !byte.is_ascii_digit() {
            return None;
        }
        value = value * 10 + u64::from(*byte - b'0');
    }
    Some(value)
}

// The number of 1 to 11 digits without leading nought.
fn unsigned(bytes: &[u8]) -> Option<u64>
    ensures { MatchOption result ((n : ℕ) → Writes bytes.now n → ⊥) (λ n. Writes bytes.now n) }
{
    match bytes {
        [] => None,
        [b'0'] => Some(0),
        [b'0', _, ..] => None,
        _ if bytes.len() > 11 => None,
        _ => digits(bytes),
    }
}

// The number of 1 to 11 digits without leading nought, which a minus may stand before if it is not
// nought.
fn signed(bytes: &[u8]) -> Option<i64>
    ensures { MatchOption result ((z : ℤ) → WritesSigned bytes.now z → ⊥) (λ z.
        WritesSigned bytes.now z) }
{
    match bytes {
        [b'-', digits @ ..] => match unsigned(digits)? {
            0 => None,
            value => Some(-(value as i64)),
        },
        _ => Some(unsigned(bytes)? as i64),
    }
}

impl Part<'_> {
    // The number that the part writes.
    pub fn number(self) -> Result<u64, Fault>
        ensures rule { IsNumberByRule self.entry result }
        ensures value { ReadsNumber self.entry result }
    {
        unsigned(self.bytes).ok_or(self.spot.fault(Rule::Number))
    }

    // The number that the part writes, which may be below nought.
    pub fn signed(self) -> Result<i64, Fault>
        ensures { ReadsSigned self.entry result }
    {
        signed(self.bytes).ok_or(self.spot.fault(Rule::Number))
    }

    // The number of a field, if it is from `low` to `high`.
    pub fn within(self, number: u64, low: usize, high: usize) -> Result<usize, Fault>
        ensures { IsWithin self.entry number low high result }
    {
        let number = number as usize;
        if low <= number && number <= high {
            Ok(number)
        } else {
            Err(self.spot.fault(Rule::Range))
        }
    }
}
