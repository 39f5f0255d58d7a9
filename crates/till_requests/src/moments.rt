//! Builds moments from seconds.

ghost use Rattle.std.specs.Prelude.{◌≡◌, ◌<◌, IfSome, IfNone};
ghost use Rattle.shop_model.specs.Calendar.{seconds_of, moment_text, digit};
ghost use Rattle.till_requests.specs.Moments.{civil_of, last_second, next_second};

use jiff_core::civil::Date;
use shop_types::Moment;

/// Returns the last decimal digit of a number, as a byte.
fn digit_of(number: u64) -> u8
    ensures { result ≡ digit number }
{
    48 + (number % 10) as u8
}

/// Returns the text of a date, from the year 0 on, with a time of day.
fn text_of(date: Date, second_of_day: u64) -> [u8; 19]
    ensures { result ≡ moment_text (civil_of date second_of_day) }
{
    let (year, month, day) = (
        date.year.unsigned_abs() as u64,
        date.month as u64,
        date.day as u64,
    );
    let (hour, minute, second) = (
        second_of_day / 3600,
        second_of_day / 60 % 60,
        second_of_day % 60,
    );
    [
        digit_of(year / 1000),
        digit_of(year / 100),
        digit_of(year / 10),
        digit_of(year),
        b'-',
        digit_of(month / 10),
        digit_of(month),
        b'-',
        digit_of(day / 10),
        digit_of(day),
        b'T',
        digit_of(hour / 10),
        digit_of(hour),
        b':',
        digit_of(minute / 10),
        digit_of(minute),
        b':',
        digit_of(second / 10),
        digit_of(second),
    ]
}

/// Returns the moment that is so many seconds after 1970-01-01T00:00:00, in no time zone. Returns none if the moment is
/// after the year 9999.
pub fn moment_at(seconds: u64) -> Option<Moment>
    ensures some { IfSome result (λ m. seconds_of m ≡ seconds) }
    ensures none { IfNone result (last_second < seconds) }
{
    let Ok(date) = Date::from_unix_epoch_day((seconds / 86400) as i64) else {
        return None;
    };
    let text = text_of(date, seconds % 86400);
    let Ok(text) = std::str::from_utf8(text.as_slice()) else {
        return None;
    };
    let moment = Moment::read(text)?;
    if moment.seconds() == seconds {
        Some(moment)
    } else {
        None
    }
}

/// Returns the moment for a new entry: `ahead` seconds after `now`, or a second after the last entry's, whichever is
/// later. Returns none if the moment is after the year 9999.
pub fn next_moment(now: Moment, last: Option<Moment>, ahead: u64) -> Option<Moment>
    ensures some { IfSome result (λ m. seconds_of m ≡ next_second now last ahead) }
    ensures none { IfNone result (last_second < next_second now last ahead) }
{
    let wanted = now.seconds().checked_add(ahead)?;
    match last {
        Some(last) => moment_at(wanted.max(last.seconds().checked_add(1)?)),
        None => moment_at(wanted),
    }
}
