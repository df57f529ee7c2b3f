// The action `shift n`: a date in a text, moved by days.
ghost use Rattle.std.specs.Prelude.{◌≡◌, true, ◌+◌, ◌≤◌, pos, ◌+ℤ◌, length, take};
ghost use Rattle.text.specs.Text.{is_digit, all, Wrote};
ghost use Rattle.text.specs.Number.{worth};
ghost use Rattle.calendar.specs.Calendar.{is_date, day_number, in_years};
ghost use Rattle.calendar.specs.Inner.{DayRoom, day_text};
ghost use Rattle.calendar.specs.Shift.{target, stamp, date_in, date_text, front, is_long, is_dated, is_moved, shifted};

use super::dates::{Date, date_of, day_number, is_date};
use text::bytes::{Class, copy_at, is_in};
use text::decimal::digit;
use text::positional::put_digits;

// Whether every byte is a digit.
fn all_digits(s: &[u8]) -> bool
    ensures { result ≡ all is_digit s.now }
{
    s.iter().all(|b| is_in(Class::Digit, *b))
}

// The number of the first eight digits.
fn eight_digits(s: &[u8]) -> u64
    requires { (8 ≤ length s.now) × (all is_digit s.now ≡ true) }
    ensures { result ≡ worth 0 (take 8 s.now) }
{
    let mut n = 0;
    for b in &s[..8] {
        n = n * 10 + u64::from(*b - b'0');
    }
    n
}

// The date that a number YYYYMMDD says.
#[tactic(auto, unfolding(crate::specs::Shift::date_in))]
fn date_in(n: u64) -> Date
    ensures { result ≡ date_in n }
{
    Date {
        year: n / 10000,
        month: n / 100 % 100,
        day: n % 100,
    }
}

// The number YYYYMMDD of a date.
#[tactic(auto, unfolding(crate::specs::Shift::stamp))]
fn stamp_of(date: Date) -> u64
    requires { is_date date ≡ true }
    ensures { result ≡ stamp date }
{
    date.year * 10000 + date.month * 100 + date.day
}

// Whether a value of n bytes may be a date, alone or with four or six digits behind it.
#[tactic(auto, unfolding(crate::specs::Shift::is_long))]
fn is_long(n: usize) -> bool
    ensures { result ≡ is_long n }
{
    matches!(n, 8 | 12 | 14)
}

// Writes the date to out from index at on, and returns the index behind it.
fn put_date(out: &mut [u8], at: usize, date: Date) -> usize
    requires { (at + 8 ≤ length out.old) × (is_date date ≡ true) }
    ensures { Wrote out.old at (date_text date) out.new result }
{
    let end = at + 8;
    put_digits(&mut out[at..end], 10, stamp_of(date), digit);
    end
}

// Whether the day n days behind a day of the years 1 to 9999 is one of them. Any n is compared with the days that are left on either side.
fn stays(day: i64, n: i64) -> bool
    requires { in_years day ≡ true }
    ensures { result ≡ in_years (day +ℤ n) }
{
    (1 - day <= n) & (n <= 3652059 - day)
}

// The date at the front of a text of digits.
#[tactic(auto, unfolding(crate::specs::Shift::front))]
fn front_date(s: &[u8]) -> Date
    requires { (8 ≤ length s.now) × (all is_digit s.now ≡ true) }
    ensures { result ≡ front s.now }
{
    date_in(eight_digits(s))
}

// Whether a value is of the form: a date, alone or with four or six digits behind it.
#[tactic(auto, using(crate::proofs::TextLaws::long_bounds), unfolding(crate::specs::Shift::is_dated))]
fn is_dated(s: &[u8]) -> bool
    ensures { result ≡ is_dated s.now }
{
    is_long(s.len()) && all_digits(s) && is_date(front_date(s))
}

// The day of the date of a value.
fn day_of(s: &[u8]) -> i64
    requires { is_dated s.now ≡ true }
    ensures { result ≡ pos (day_number (front s.now)) }
{
    day_number(front_date(s))
}

// Whether a value is a date that stays in the years when it is moved by n days.
#[tactic(auto, unfolding(crate::specs::Shift::is_moved, crate::specs::Shift::target))]
fn is_moved(value: &[u8], n: i64) -> bool
    ensures { result ≡ is_moved n value.now }
{
    is_dated(value) && stays(day_of(value), n)
}

// The day n days behind the date of a value.
#[tactic(auto, using(crate::proofs::TextLaws::moved_of), unfolding(crate::specs::Shift::target))]
fn moved_day(value: &[u8], n: i64) -> i64
    requires { is_moved n value.now ≡ true }
    ensures { result ≡ target n (front value.now) }
{
    day_of(value) + n
}

// Writes the date of a day to out from index at on, and behind it what stands behind the date in value.
fn put_day(out: &mut [u8], at: usize, day: i64, value: &[u8]) -> usize
    requires { DayRoom day value.now at out.old }
    ensures { Wrote out.old at (day_text day value.now) out.new result }
{
    let behind = put_date(out, at, date_of(day));
    copy_at(out, behind, &value[8..])
}

// The length of the shifted value: 0 where it is cleared.
pub fn shifted_len(value: &[u8], n: i64) -> usize
    ensures { result ≡ length (shifted n value.now) }
{
    if is_moved(value, n) { value.len() } else { 0 }
}

// Writes the shifted value to out from index at on, and returns the index behind it: at where it is cleared.
pub fn shift_at(value: &[u8], n: i64, out: &mut [u8], at: usize) -> usize
    requires { at + length (shifted n value.now) ≤ length out.old }
    ensures { Wrote out.old at (shifted n value.now) out.new result }
{
    if is_moved(value, n) {
        put_day(out, at, moved_day(value, n), value)
    } else {
        at
    }
}
