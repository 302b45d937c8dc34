//! GeneralizedTime by DER (X.680, 46; X.690, 8.25 and 11.7).
//!
//! `jiff` says which dates exist, and `jiff_core` counts the days. No second is a leap second. A time
//! is DER under every rule, since its only use is in a TSTInfo.
ghost use Rattle.std.specs.Prelude.{◌≡◌, ◌≢◌, ◌↔◌, ℕ, ◌^◌, ◌<◌, ◌≤◌, ◌*◌, ◌+◌, List, pos, IsTrue, IfOk, IfErr, IfSome, IfNone, OnOk, OnErr, MatchOption, length, bytes_eq};
ghost use Rattle.std.specs.List.{AllByRecursion, list_all};
ghost use Rattle.cms_tlv.specs.Spelling.{der};
ghost use Rattle.cms_fields.specs.Writing.{Writes, HasLength};
ghost use Rattle.jiff_core.specs.Calendar.{IsEpochDay, days_from_civil};
ghost use Rattle.cms_scalars.specs.Times.{Time, IsDigit, decimal_value, with_stop, time_text, time_digits, time_fraction, year, month, day, hour, minute, second, HasTimeForm, HasDate, HasTimeOfDay, IsTimeOf, TimeFaults, IsGeneralizedTime, generalized_time, unix_seconds};
ghost use Rattle.cms_scalars.specs.TimeReaders.{time_in, is_generalized_time, is_digit, IsTimeEnd, IsFraction, AreTimeDigits};
ghost use Rattle.cms_scalars.specs.declared.times.TimeFault.TheVariants.{OutOfMemory};

use cms_fields::{Kind, Primitive, Scalar};
use cms_tlv::{GENERALIZED_TIME, Reason, header_len, lengths_are_one, put_header};
use jiff::civil::Date;
use std::alloc::{AllocError, Global};
use std::marker::Model;
use thiserror::Error;

/// Why octets are not the contents of a GeneralizedTime in DER.
#[derive(Clone, Copy, Debug, PartialEq, Eq, Error)]
pub enum TimeFault {
    /// Not YYYYMMDDhhmmss, a fraction that does not end in 0 or none, and Z (X.690, 11.7).
    #[error("not the text of a time in DER")]
    Form,
    /// The Gregorian calendar does not have the date.
    #[error("no such date")]
    NoSuchDate,
    /// The hour is above 23, or the minute or the second above 59.
    #[error("no such time of day")]
    NoSuchTime,
    /// Memory ran out.
    #[error("out of memory")]
    OutOfMemory,
}

impl From<AllocError> for TimeFault {
    ghost use Rattle.std.specs.Prelude.{◌≡◌};
    ghost use Rattle.cms_scalars.specs.declared.times.TimeFault.TheVariants.{OutOfMemory};

    ghost from_gives = { λ _ e. e ≡ OutOfMemory };

    fn from(_: AllocError) -> TimeFault {
        TimeFault::OutOfMemory
    }
}

/// The contents octets of a GeneralizedTime in DER.
#[derive(Drop)]
pub struct TimeOctets;

impl Kind for TimeOctets {
    ghost is = { IsGeneralizedTime };
}

impl Scalar for TimeOctets {
    ghost use Rattle.cms_tlv.specs.declared.fault.Reason.TheVariants.{UnexpectedElement};

    ghost test = { is_generalized_time };

    ghost malformed = { UnexpectedElement };

    fn passes(octets: &[u8]) -> bool {
        unix_seconds_of(octets).is_ok()
    }

    fn reason() -> Reason {
        Reason::UnexpectedElement
    }

    fn law() {}
}

/// Where the contents of a GeneralizedTime in DER lie.
pub type GeneralizedTimeSpan = Primitive<GENERALIZED_TIME, TimeOctets>;

/// A GeneralizedTime in DER, by its contents octets.
#[derive(Drop)]
pub struct GenTime {
    octets: Vec<u8>,
    seconds: i64,
}

impl Model for GenTime {
    ghost Value = { Time };

    ghost view = { λ t. time_in t.octets.items };

    ghost invariant = { λ t. IsTimeOf t.octets.items (time_in t.octets.items).0
        (time_in t.octets.items).1 × (t.seconds ≡ unix_seconds (time_in t.octets.items).0) };
}

impl GenTime {
    /// The time with these contents octets, of which it keeps a copy. The faults are judged in the order
    /// `Form`, `NoSuchDate`, `NoSuchTime`, `OutOfMemory`.
    pub fn from_der(alloc: Global, octets: &[u8]) -> Result<GenTime, TimeFault>
        ensures ok { IfOk result (λ t. IsTimeOf octets.now (time_digits t) (time_fraction t)) }
        ensures err { IfErr result (TimeFaults octets.now) }
    {
        let seconds = unix_seconds_of(octets)?;
        Ok(GenTime {
            octets: octets.to_vec(alloc)?,
            seconds,
        })
    }

    /// The seconds since 1970-01-01 00:00:00 UTC, without the fraction and without leap seconds.
    pub fn unix_seconds(&self) -> i64
        ensures { result ≡ unix_seconds (time_digits self.now) }
    {
        self.seconds
    }

    /// The fourteen digits YYYYMMDDhhmmss.
    pub fn digits(&self) -> &[u8]
        ensures { result.now ≡ time_digits self.now }
    {
        &self.octets[..14]
    }

    /// The digits of the fraction of a second; none if there is no fraction.
    pub fn fraction(&self) -> &[u8]
        ensures { result.now ≡ time_fraction self.now }
    {
        match self.octets.get(15..) {
            Some([fraction @ .., _]) => fraction,
            _ => &[],
        }
    }

    /// The contents octets.
    pub fn octets(&self) -> &[u8]
        ensures { IsTimeOf result.now (time_digits self.now) (time_fraction self.now) }
    {
        &self.octets
    }

    /// How many octets its element has, or `u64::MAX` if there are more.
    pub fn encoded_len(&self) -> u64
        ensures { HasLength (generalized_time der) bytes_eq
            (time_text (time_digits self.now) (time_fraction self.now)) result }
    {
        lengths_are_one();
        let n = self.octets.len() as u64;
        header_len(n).saturating_add(n)
    }

    /// Appends its element. An error means out of memory; `out` is then as it was.
    pub fn put(&self, out: &mut Vec<u8>) -> Result<(), AllocError>
        ensures ok { OnOk result (Writes (generalized_time der) bytes_eq
            (time_text (time_digits self.now) (time_fraction self.now))
            out.old.items out.new.items) }
        ensures err { OnErr result (out.new.items ≡ out.old.items) }
    {
        let before = out.len();
        out.reserve(self.encoded_len() as usize)?;
        put_header(out, GENERALIZED_TIME, self.octets.len() as u64)?;
        match out.extend_from_slice(&self.octets) {
            Ok(()) => Ok(()),
            Err(error) => {
                out.truncate(before);
                Err(error)
            }
        }
    }
}

/// The seconds since 1970-01-01 00:00:00 UTC of the contents octets of a GeneralizedTime in DER, without
/// the fraction. Takes no memory.
fn unix_seconds_of(octets: &[u8]) -> Result<i64, TimeFault>
    ensures ok { IfOk result (λ n. IsTimeOf octets.now (time_in octets.now).0 (time_in octets.now).1
        × (n ≡ unix_seconds (time_in octets.now).0)) }
    ensures err { IfErr result (λ e. TimeFaults octets.now e × (e ≢ OutOfMemory)) }
{
    let Some(digits) = digits_of(octets) else {
        return Err(TimeFault::Form);
    };
    let Some(day) = epoch_day_of(digits) else {
        return Err(TimeFault::NoSuchDate);
    };
    let Some(second) = second_of_day(digits) else {
        return Err(TimeFault::NoSuchTime);
    };
    Ok(i64::from(day) * 86_400 + i64::from(second))
}

/// The digits before the fraction, if the octets are the text of a time.
fn digits_of(octets: &[u8]) -> Option<&[u8]>
    ensures none { IfNone result ((d f : List ℕ) → ¬ HasTimeForm octets.now d f) }
    ensures some { IfSome result (λ d. (d.now ≡ (time_in octets.now).0)
        × HasTimeForm octets.now (time_in octets.now).0 (time_in octets.now).1) }
{
    if octets.len() < 15 {
        return None;
    }
    let (digits, end) = octets.split_at(14);
    if are_digits(digits) && is_end(end) {
        Some(digits)
    } else {
        None
    }
}

/// Whether the octets are the fraction of a second, or nothing, and `Z`.
fn is_end(octets: &[u8]) -> bool
    ensures { IsTrue result ↔ ((f : List ℕ) × IsTimeEnd octets.now f) }
{
    match octets {
        [b'Z'] => true,
        [b'.', fraction @ .., b'Z'] => is_fraction(fraction),
        _ => false,
    }
}

/// Whether there is at least one digit, all octets are digits, and the last is not 0.
fn is_fraction(octets: &[u8]) -> bool
    ensures { IsTrue result ↔ IsFraction octets.now }
{
    match octets {
        [.., last] => *last != b'0' && are_digits(octets),
        [] => false,
    }
}

/// Whether all octets are decimal digits.
fn are_digits(octets: &[u8]) -> bool
    ensures { result ≡ list_all is_digit octets.now }
{
    octets.iter().all(|octet| octet.is_ascii_digit())
}

/// The day number of the date, from 0 for 1970-01-01, if the calendar has it.
fn epoch_day_of(digits: &[u8]) -> Option<i32>
    requires { AreTimeDigits digits.now }
    ensures none { IfNone result (¬ HasDate digits.now) }
    ensures some { IfSome result (λ n. HasDate digits.now × (n ≡ days_from_civil
        (pos (year digits.now)) (month digits.now) (day digits.now)) × IsEpochDay n) }
{
    let year = number(&digits[..4]) as i16;
    let month = number(&digits[4..6]) as i8;
    let day = number(&digits[6..8]) as i8;
    match Date::new(year, month, day) {
        Ok(date) => Some(date.to_plain().to_unix_epoch_day()),
        Err(_) => None,
    }
}

/// The seconds since midnight, if there is such a time of day.
fn second_of_day(digits: &[u8]) -> Option<u32>
    requires { AreTimeDigits digits.now }
    ensures none { IfNone result (¬ HasTimeOfDay digits.now) }
    ensures some { IfSome result (λ n. HasTimeOfDay digits.now × (n ≡ 3_600 * hour digits.now
        + 60 * minute digits.now + second digits.now) × (n < 86_400)) }
{
    let hour = u32::from(number(&digits[8..10]));
    let minute = u32::from(number(&digits[10..12]));
    let second = u32::from(number(&digits[12..14]));
    if hour <= 23 && minute <= 59 && second <= 59 {
        Some(3_600 * hour + 60 * minute + second)
    } else {
        None
    }
}

/// The number that at most four digits stand for.
fn number(digits: &[u8]) -> u16
    requires few { length digits.now ≤ 4 }
    requires digits { AllByRecursion IsDigit digits.now }
    ensures value { result ≡ decimal_value digits.now }
    ensures bound { result < 10 ^ length digits.now }
{
    let mut number = 0;
    for digit in digits {
        number = 10 * number + u16::from(*digit - b'0');
    }
    number
}

/// Does nothing. Its contract says that the text of a time has one list of digits and one fraction.
pub fn texts_of_times_are_unambiguous()
    ensures { (c d e f g : List ℕ) → HasTimeForm c d f → HasTimeForm c e g → (d ≡ e) × (f ≡ g) }
{}
