//! The date and the time of day in UTC.

ghost use Rattle.std.specs.Prelude.{◌≡◌, ◌++◌, ◌<◌, ◌^◌, ◌/◌, OnOk, pos};
ghost use Rattle.url_escapes.specs.Date.{two, day_at, day_text, date_text};

use jiff::Timestamp;
use jiff::civil::Date;
use jiff::tz::Offset;
use kn_base::{Memory, Octets};

/// The seconds of an hour.
const HOUR: u64 = 3_600;

/// The seconds of a minute.
const MINUTE: u64 = 60;

/// The date in UTC at a time in Unix seconds. Its year has four digits.
fn date_at(time: u64) -> Date
    requires { time < 2 ^ 37 }
    ensures year { result.year ≡ pos (day_at (time / 86400)).year }
    ensures month { result.month ≡ (day_at (time / 86400)).month }
    ensures day { result.day ≡ (day_at (time / 86400)).day }
    ensures four { (day_at (time / 86400)).year < 10000 }
{
    let at = Timestamp::from_second(time as i64).unwrap();
    Offset::UTC.to_datetime(at).date()
}

/// Puts a number last, in two digits.
#[tactic(auto, unfolding(crate::specs::Date::two))]
fn write_two(out: &mut Octets, number: u8) -> Result<(), Memory>
    requires { number < 100 }
    ensures { OnOk result (out.new ≡ out.old ++ two number) }
{
    out.push(b'0' + number / 10)?;
    out.push(b'0' + number % 10)
}

/// Puts the date at a time last, as YYYY-MM-DD.
#[tactic(auto, unfolding(crate::specs::Date::day_text))]
fn write_day(out: &mut Octets, time: u64) -> Result<(), Memory>
    requires { time < 2 ^ 37 }
    ensures { OnOk result (out.new ≡ out.old ++ day_text (day_at (time / 86400))) }
{
    let date = date_at(time);
    let year = date.year() as u16;
    write_two(out, (year / 100) as u8)?;
    write_two(out, (year % 100) as u8)?;
    out.push(b'-')?;
    write_two(out, date.month() as u8)?;
    out.push(b'-')?;
    write_two(out, date.day() as u8)
}

/// Puts a time in Unix seconds last, as `YYYY-MM-DD HH:MM` in UTC.
pub(crate) fn write_date(out: &mut Octets, time: u64) -> Result<(), Memory>
    requires { time < 2 ^ 37 }
    ensures { OnOk result (out.new ≡ out.old ++ date_text time) }
{
    write_day(out, time)?;
    out.push(b' ')?;
    write_two(out, (time / HOUR % 24) as u8)?;
    out.push(b':')?;
    write_two(out, (time / MINUTE % 60) as u8)
}
