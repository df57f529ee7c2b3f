// Years: leap years, and the days of many years.
ghost use Rattle.std.specs.Prelude.{◌≡◌, ◌<◌};
ghost use Rattle.calendar.specs.Calendar.{leap, year_length, sum};
ghost use Rattle.calendar.specs.Inner.{YearsIn};

// Whether the year is a leap year. With `&&` and `||`, here and in months_days, shifted_len takes a fifth longer.
#[tactic(auto, unfolding(crate::specs::Calendar::leap))]
pub fn is_leap(year: u64) -> bool
    ensures { result ≡ leap year }
{
    (year % 4 == 0) & ((year % 100 != 0) | (year % 400 == 0))
}

// The days of the years 1 to k.
#[tactic(auto, using(crate::proofs::YearLaws::years_days))]
pub fn years_days(k: u64) -> u64
    requires { k < 10000 }
    ensures { result ≡ sum year_length k }
{
    k * 365 + k / 4 + k / 400 - k / 100
}

// How many whole years the first n days hold: by 400, by 100, by 4 years and by one. The last day of 400 or of 4 years is the last of their
// fourth part.
pub fn whole_years(n: u64) -> u64
    requires { n < 3652059 }
    ensures { YearsIn n result }
{
    let in400 = n % 146097;
    let hundreds = (in400 / 36524).min(3);
    let in100 = in400 - hundreds * 36524;
    let in4 = in100 % 1461;
    let ones = (in4 / 365).min(3);
    n / 146097 * 400 + hundreds * 100 + in100 / 1461 * 4 + ones
}
