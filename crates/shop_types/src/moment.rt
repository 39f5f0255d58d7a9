ghost use Rattle.std.specs.Prelude.{◌≡◌, ℕ, List, pos, ◌+◌, ◌<◌, ◌≤◌, ◌≤ℤ◌, ◌↔◌, IsTrue, IfSome, IfNone, Some, length, slice_index};
ghost use Rattle.shop_model.specs.Calendar.{Moment as Value, IsMoment, moment_text, day_of, seconds_of, is_earlier, digit};
ghost use Rattle.shop_types.specs.Moments.{IsDigits, IsTextOf};

use jiff::civil::Date;
use std::fmt;
use std::marker::Model;

/// A date and a time of day to the second, from 1970 to 9999, in no time zone.
#[derive(Clone, Copy, PartialEq, Eq)]
pub struct Moment {
    year: u16,
    month: u8,
    day: u8,
    hour: u8,
    minute: u8,
    second: u8,
}

impl Model for Moment {
    ghost use Rattle.shop_model.specs.Calendar.{Moment as Civil, IsMoment};

    ghost Value = { Civil };

    ghost view = { λ a. record { year = a.year; month = a.month; day = a.day; hour = a.hour; minute = a.minute; second = a.second } };

    ghost invariant = { λ a. IsMoment (record { year = a.year; month = a.month; day = a.day; hour = a.hour; minute = a.minute; second = a.second }) };

    ghost inverse = { λ m. record { year = m.year; month = m.month; day = m.day; hour = m.hour; minute = m.minute; second = m.second } };
}

fn is_digit(b: u8) -> bool
    ensures { IsTrue result ↔ ((48 ≤ b) × (b ≤ 57)) }
{
    b >= b'0' && b <= b'9'
}

/// Returns the number that the two bytes from `at` on write in decimal, if they are digits.
fn pair(bytes: &[u8], at: usize) -> u8
    requires { at + 1 < length bytes.now }
    ensures { (n : ℕ) → IsDigits n (slice_index bytes.now at) (slice_index bytes.now (at + 1)) → result ≡ n }
{
    let tens = bytes[at];
    let ones = bytes[at + 1];
    if is_digit(tens) && is_digit(ones) {
        (tens - 48) * 10 + (ones - 48)
    } else {
        0
    }
}

/// Returns the last decimal digit of a number, as a byte.
fn digit_of(n: u16) -> u8
    ensures { result ≡ digit n }
{
    48 + (n % 10) as u8
}

impl Moment {
    /// Returns the moment with the given parts, or none if the calendar has no such moment.
    fn from_parts(year: u16, month: u8, day: u8, hour: u8, minute: u8, second: u8) -> Option<Moment>
        ensures some { IfSome result (λ m. (m ≡ record
            { year = year; month = month; day = day; hour = hour; minute = minute; second = second })
            × IsMoment m) }
        ensures none { IfNone result (¬ (IsMoment
            (record { year = year; month = month; day = day; hour = hour; minute = minute; second = second }))) }
    {
        if year < 1970
            || year > 9999
            || month > 12
            || day > 31
            || hour > 23
            || minute > 59
            || second > 59
        {
            return None;
        }
        if Date::new(year as i16, month as i8, day as i8).is_err() {
            return None;
        }
        Some(Moment {
            year,
            month,
            day,
            hour,
            minute,
            second,
        })
    }

    /// Returns the first second of a month.
    pub fn month_start(year: u16, month: u8) -> Moment
        requires year_low { 1970 ≤ year }
        requires year_high { year ≤ 9999 }
        requires month_low { 1 ≤ month }
        requires month_high { month ≤ 12 }
        ensures { result ≡ record { year = year; month = month; day = 1; hour = 0; minute = 0; second = 0 } }
    {
        Moment {
            year,
            month,
            day: 1,
            hour: 0,
            minute: 0,
            second: 0,
        }
    }

    /// Returns the moment that the 19 bytes `YYYY-MM-DDTHH:MM:SS` write: a date of the calendar from 1970 to 9999 and
    /// a time of day.
    pub fn read(text: &str) -> Option<Moment>
        ensures some { IfSome result (λ m. IsTextOf text.now m) }
        ensures none { IfNone result ((m : Value) → IsMoment m → ¬ (moment_text m ≡ text.now)) }
    {
        let bytes = text.as_bytes();
        if bytes.len() != 19 {
            return None;
        }
        let year = pair(bytes, 0) as u16 * 100 + pair(bytes, 2) as u16;
        match Moment::from_parts(
            year,
            pair(bytes, 5),
            pair(bytes, 8),
            pair(bytes, 11),
            pair(bytes, 14),
            pair(bytes, 17),
        ) {
            Some(moment) => {
                if moment.text().as_slice() == bytes {
                    Some(moment)
                } else {
                    None
                }
            }
            None => None,
        }
    }

    /// Returns the 19 bytes `YYYY-MM-DDTHH:MM:SS`, which `read` reads back.
    pub fn text(self) -> [u8; 19]
        ensures value { result ≡ moment_text self }
        ensures kind { IsMoment self }
    {
        let (month, day) = (self.month as u16, self.day as u16);
        let (hour, minute, second) = (self.hour as u16, self.minute as u16, self.second as u16);
        [
            digit_of(self.year / 1000),
            digit_of(self.year / 100),
            digit_of(self.year / 10),
            digit_of(self.year),
            b'-',
            digit_of(month / 10),
            digit_of(month),
            b'-',
            digit_of(day / 10),
            digit_of(day),
            b'T',
            digit_of(hour / 10),
            digit_of(hour),
            b':',
            digit_of(minute / 10),
            digit_of(minute),
            b':',
            digit_of(second / 10),
            digit_of(second),
        ]
    }

    /// Returns the year, from 1970 to 9999.
    pub fn year(self) -> u16
        ensures value { result ≡ self.year }
        ensures low { 1970 ≤ result }
        ensures high { result ≤ 9999 }
    {
        self.year
    }

    /// Returns the month, from 1, January, to 12.
    pub fn month(self) -> u8
        ensures value { result ≡ self.month }
        ensures low { 1 ≤ result }
        ensures high { result ≤ 12 }
    {
        self.month
    }

    /// Returns the number of its day: 0 for 1970-01-01, 2,932,896 for 9999-12-31.
    pub fn day(self) -> i32
        ensures value { result ≡ pos (day_of self) }
        ensures high { result ≤ℤ pos 2_932_896 }
    {
        let date = Date::new(self.year as i16, self.month as i8, self.day as i8).unwrap();
        date.to_plain().to_unix_epoch_day()
    }

    /// Returns the seconds since 1970-01-01T00:00:00, by which moments are in order.
    pub fn seconds(self) -> u64
        ensures { result ≡ seconds_of self }
    {
        let day = self.day() as u64;
        day * 86400 + (self.hour as u64 * 3600 + (self.minute as u64 * 60 + self.second as u64))
    }

    /// Returns whether this moment is before the other. No moment is before itself.
    pub fn is_earlier(self, other: Moment) -> bool
        ensures { result ≡ is_earlier self other }
    {
        self.seconds() < other.seconds()
    }
}

/// No two moments have one text, so that `read` gives back the moment whose text it reads.
pub fn moment_texts_are_one_to_one()
    ensures { (a b : Value) (text : List ℕ) → IsTextOf text a → IsTextOf text b → a ≡ b }
{}

impl fmt::Display for Moment {
    ghost output = { λ m. Some (moment_text m) };

    fn fmt<W: fmt::Write>(&self, f: &mut fmt::Formatter<W>) -> fmt::Result {
        let text = self.text();
        f.write_str(std::str::from_utf8(text.as_slice()).unwrap())
    }
}
