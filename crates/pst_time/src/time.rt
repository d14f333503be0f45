//! The text of a time.

ghost use Rattle.std.specs.Prelude.{◌≡◌, ◌<◌, ◌++◌, IfOk, codes, option_map, string_bytes, IsUtf8};
ghost use Rattle.pst_time.specs.Calendar.{part};
ghost use Rattle.pst_time.specs.Time.{date_text, clock_text, moment_text, time_text as text_of_time};

use crate::calendar::{Part, month_of_day, year_of_day};
use crate::digits::{four_digits, seven_digits, two_digits};
use std::alloc::{AllocError, Global};
use std::str;

// Steps of 100 nanoseconds in a second.
const SECOND: u64 = 10_000_000;

// Seconds in a day.
const DAY: u64 = 86_400;

// The last year that has four digits.
const LAST_YEAR: u64 = 9999;

// A date, and the letter before the time of day.
#[tactic(auto, unfolding(crate::specs::Time::date_text))]
fn date_bytes(year: Part) -> [u8; 11]
    requires { year.rest < 4294967296 }
    ensures { result ≡ date_text (part year.number year.rest) ++ codes "T" }
{
    let month = month_of_day(year.number, year.rest);
    let [y1, y2, y3, y4] = four_digits(year.number);
    let [m1, m2] = two_digits(month.number);
    let [d1, d2] = two_digits(month.rest + 1);
    [y1, y2, y3, y4, b'-', m1, m2, b'-', d1, d2, b'T']
}

// A time of day, and the letter behind it.
#[tactic(auto, unfolding(crate::specs::Time::clock_text))]
fn clock_bytes(second: u64, steps: u64) -> [u8; 17]
    ensures { result ≡ clock_text second steps ++ codes "Z" }
{
    let [h1, h2] = two_digits(second / 3600);
    let [m1, m2] = two_digits(second / 60 % 60);
    let [s1, s2] = two_digits(second % 60);
    let [f1, f2, f3, f4, f5, f6, f7] = seven_digits(steps);
    [
        h1, h2, b':', m1, m2, b':', s1, s2, b'.', f1, f2, f3, f4, f5, f6, f7, b'Z',
    ]
}

// The text of a time in a year.
fn moment_bytes(year: Part, time: u64) -> [u8; 28]
    requires { year.rest < 4294967296 }
    ensures { result ≡ moment_text (part year.number year.rest) time }
{
    let mut bytes = [0; 28];
    bytes[..11].copy_from_slice(&date_bytes(year));
    bytes[11..].copy_from_slice(&clock_bytes(time / SECOND % DAY, time % SECOND));
    bytes
}

/// The bytes of the text of a time, as 2019-04-17T18:40:00.0000000Z; None where it lies behind the year 9999.
#[tactic(auto, unfolding(crate::specs::Time::time_text))]
pub fn time_bytes(time: u64) -> Option<[u8; 28]>
    ensures { result ≡ text_of_time time }
{
    let year = year_of_day(time / SECOND / DAY);
    if year.number > LAST_YEAR {
        return None;
    }
    Some(moment_bytes(year, time))
}

// The text that these bytes are.
fn text_of_bytes(alloc: Global, bytes: &[u8]) -> Result<String, AllocError>
    requires { IsUtf8 bytes.now }
    ensures { IfOk result (λ s. string_bytes s ≡ bytes.now) }
{
    match str::from_utf8(bytes) {
        Ok(text) => String::from_str(alloc, text),
        Err(_) => unreachable!(),
    }
}

/// The text of a time, as 2019-04-17T18:40:00.0000000Z; None where it lies behind the year 9999.
#[tactic(auto, using(crate::proofs::TextLemmas::text_is_utf8))]
pub fn time_text(alloc: Global, time: u64) -> Result<Option<String>, AllocError>
    ensures { IfOk result (λ o. option_map string_bytes o ≡ text_of_time time) }
{
    match time_bytes(time) {
        Some(bytes) => Ok(Some(text_of_bytes(alloc, &bytes)?)),
        None => Ok(None),
    }
}
