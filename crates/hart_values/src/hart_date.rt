//! Dates: a day of the calendar, or "not set".
ghost use Rattle.std.specs.Prelude.{◌≡◌, ◌≢◌, ◌+◌, ◌↔◌, IsOk, IfOk, IfErr, IsTrue, MatchBool};
ghost use Rattle.hart_values.specs.hart_date.Calendar.{IsCalendarDay, IsDateBytes, not_set};

use crate::ValueFault;
use jiff::civil::Date;
use std::marker::Model;

/// The bytes of the date "not set".
const NOT_SET: [u8; 3] = [0; 3];

/// The year that a date codes as the byte 0.
const FIRST_YEAR: i16 = 1900;

/// A day of the years 1900 to 2155 (HCF_SPEC-127), or "not set" (implementation choice).
///
/// In contracts, a date is its three bytes: the day, the month, and the year minus 1900.
#[derive(Clone, Copy, Debug, PartialEq, Eq)]
pub struct HartDate {
    bytes: [u8; 3],
}

impl Model for HartDate {
    ghost use Rattle.std.specs.Prelude.{List, ℕ};
    ghost use Rattle.hart_values.specs.hart_date.Calendar.{IsDateBytes};

    ghost Value = { List ℕ };

    ghost view = { λ date. date.bytes };

    ghost invariant = { λ date. IsDateBytes date.bytes };

    ghost inverse = { λ xs. record { bytes = xs } };
}

impl HartDate {
    /// Reads the date from these bytes.
    ///
    /// # Errors
    ///
    /// [`ValueFault::BadDate`] if the bytes are neither three zeros nor a day of the calendar.
    pub fn from_bytes(bytes: [u8; 3]) -> Result<Self, ValueFault>
        ensures accepted { IsOk result ↔ IsDateBytes bytes }
        ensures kept { IfOk result (λ date. date ≡ bytes) }
        ensures refused { IfErr result (λ fault. fault ≡ ValueFault.BadDate) }
    {
        let [day, month, year] = bytes;
        if bytes == NOT_SET || is_calendar_day(day, month, year) {
            Ok(HartDate { bytes })
        } else {
            Err(ValueFault::BadDate)
        }
    }

    /// Returns the three bytes.
    pub fn as_bytes(&self) -> &[u8]
        ensures value { result.now ≡ self.now }
        ensures date { IsDateBytes result.now }
    {
        &self.bytes
    }

    /// Returns true for a day, and false for "not set".
    pub fn is_set(self) -> bool
        ensures { MatchBool result (self ≢ not_set) (self ≡ not_set) }
    {
        self.bytes != NOT_SET
    }
}

/// Returns true if the calendar has this day. The argument `year` is the year minus 1900.
///
/// The calendar comes from the crate `jiff`. The definition `IsCalendarDay` does not depend on `jiff`: it states the lengths of the months
/// and the leap years, so that a reader can check them.
pub(crate) fn is_calendar_day(day: u8, month: u8, year: u8) -> bool
    ensures { IsTrue result ↔ IsCalendarDay day month (1900 + year) }
{
    match (i8::try_from(month), i8::try_from(day)) {
        (Ok(month), Ok(day)) => Date::new(FIRST_YEAR + i16::from(year), month, day).is_ok(),
        _ => false,
    }
}
