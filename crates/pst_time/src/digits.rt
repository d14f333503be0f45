//! Decimal digits of a fixed number.

ghost use Rattle.std.specs.Prelude.{◌≡◌, ◌+◌, ◌%◌};
ghost use Rattle.pst_time.specs.Time.{digits};

// The last decimal digit of a number.
fn digit(number: u64) -> u8
    ensures { result ≡ 48 + number % 10 }
{
    b'0' + (number % 10) as u8
}

/// The last two decimal digits of a number.
#[tactic(auto, unfolding(crate::specs::Time::digits))]
pub(crate) fn two_digits(number: u64) -> [u8; 2]
    ensures { result ≡ digits 2 number }
{
    [digit(number / 10), digit(number)]
}

/// The last four.
#[tactic(auto, unfolding(crate::specs::Time::digits))]
pub(crate) fn four_digits(number: u64) -> [u8; 4]
    ensures { result ≡ digits 4 number }
{
    let [tens, ones] = two_digits(number);
    let [thousands, hundreds] = two_digits(number / 10 / 10);
    [thousands, hundreds, tens, ones]
}

/// The last seven.
#[tactic(auto, unfolding(crate::specs::Time::digits))]
pub(crate) fn seven_digits(number: u64) -> [u8; 7]
    ensures { result ≡ digits 7 number }
{
    let [fourth, fifth, sixth, seventh] = four_digits(number);
    let front = number / 10 / 10 / 10 / 10;
    let [second, third] = two_digits(front);
    let first = digit(front / 10 / 10);
    [first, second, third, fourth, fifth, sixth, seventh]
}
