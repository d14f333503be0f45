//! The days of the Gregorian calendar.

ghost use Rattle.std.specs.Prelude.{◌≡◌, ◌-◌, ◌≤◌, ◌<◌, ℕ};
ghost use Rattle.pst_time.specs.Calendar.{is_leap as leap, days_in_month as month_days, month_from, part};
ghost use Rattle.pst_time.specs.Calendar.{year_from};

// The days of 400 years.
const CYCLE: u64 = 146_097;

// Those of 100 years whose last has no leap day.
const CENTURY: u64 = 36_524;

// Those of 4 years whose last has one.
const FOUR: u64 = 1_461;

// Those of a year that has none.
const YEAR: u64 = 365;

/// A unit of time, by its number, and how much of what was counted lies behind its start.
#[derive(Clone, Copy, Debug, PartialEq, Eq)]
pub(crate) struct Part {
    /// Its number.
    pub(crate) number: u64,
    /// What lies behind its start.
    pub(crate) rest: u64,
}

// Every fourth year, but of those that end a century only every fourth.
fn is_leap(year: u64) -> bool
    ensures { result ≡ leap year }
{
    year % 4 == 0 && (year % 100 != 0 || year % 400 == 0)
}

// The days of a month.
fn days_in_month(year: u64, month: u64) -> u64
    ensures { result ≡ month_days year month }
{
    match month {
        2 if is_leap(year) => 29,
        2 => 28,
        4 | 6 | 9 | 11 => 30,
        _ => 31,
    }
}

/// The year in which a day lies that is counted from 1 January 1601 on: behind whole cycles of 400 years, centuries and fours of
/// years. Only the last century of a cycle, and the last year of a four, may have a day more than the others.
pub(crate) fn year_of_day(day: u64) -> Part
    requires { day < 4294967296 }
    ensures less { result.rest ≤ day }
    ensures year { part result.number result.rest ≡ year_from day 1601 day }
{
    let (cycle, rest) = (day / CYCLE, day % CYCLE);
    let century = (rest / CENTURY).min(3);
    let rest = rest - CENTURY * century;
    let (four, rest) = (rest / FOUR, rest % FOUR);
    let last = (rest / YEAR).min(3);
    Part {
        number: 1601 + 400 * cycle + 100 * century + 4 * four + last,
        rest: rest - YEAR * last,
    }
}

// The quarter of a year in which a day lies, by its first month.
#[tactic(auto, using(crate::proofs::CalendarLemmas::second_quarter, crate::proofs::CalendarLemmas::third_quarter, crate::proofs::CalendarLemmas::last_quarter))]
fn quarter_of_day(year: u64, day: u64) -> Part
    ensures less { result.rest ≤ day }
    ensures first { (1 ≤ result.number) × (result.number ≤ 10) }
    ensures month { month_from (13 - result.number) year result.number result.rest
        ≡ month_from 12 year 1 day }
{
    let leap = u64::from(is_leap(year));
    if day < 90 + leap {
        return Part {
            number: 1,
            rest: day,
        };
    }
    if day < 181 + leap {
        return Part {
            number: 4,
            rest: day - 90 - leap,
        };
    }
    if day < 273 + leap {
        return Part {
            number: 7,
            rest: day - 181 - leap,
        };
    }
    Part {
        number: 10,
        rest: day - 273 - leap,
    }
}

/// The month in which a day of a year lies, from 1 on; the last has all days that are left.
#[tactic(auto, using(crate::proofs::CalendarLemmas::month_next, crate::proofs::CalendarLemmas::month_here, crate::proofs::CalendarLemmas::month_last))]
pub(crate) fn month_of_day(year: u64, day: u64) -> Part
    ensures less { result.rest ≤ day }
    ensures month { part result.number result.rest ≡ month_from 12 year 1 day }
{
    let Part {
        mut number,
        mut rest,
    } = quarter_of_day(year, day);
    while number <= 12 && rest >= days_in_month(year, number) {
        rest -= days_in_month(year, number);
        number += 1;
    }
    Part { number, rest }
}
