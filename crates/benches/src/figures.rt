//! The form of all that is printed: a line for each measurement, of its name, its value and its
//! unit, with tabs between them.
use std::fmt::{self, Display, Formatter, Write};
use std::io;
use std::time::Duration;

/// Prints a measurement.
pub(crate) fn print_figure(
    rt: &impl Print,
    name: impl Display + Drop,
    value: impl Display + Drop,
    unit: &str,
) -> io::Result<()> {
    println!(rt; "{name}\t{value}\t{unit}")
}

/// Returns the nanoseconds of a time, or the most that there can be.
pub(crate) fn nanoseconds_of(time: Duration) -> u64 {
    let seconds = time.as_secs().saturating_mul(1_000_000_000);
    seconds.saturating_add(u64::from(time.subsec_nanos()))
}

/// A number with three decimals.
#[derive(Clone, Copy, Drop)]
pub(crate) struct Decimal {
    thousandths: i64,
}

impl Decimal {
    /// Returns the total divided by the count, rounded down, or zero if nothing was counted.
    pub(crate) fn quotient(total: u64, count: u64) -> Decimal {
        let thousandths = u128::from(total) * 1_000 / u128::from(count.max(1));
        Decimal {
            thousandths: i64::try_from(thousandths).unwrap_or(i64::MAX),
        }
    }

    /// Returns the difference, which may be below zero.
    pub(crate) fn minus(self, other: Decimal) -> Decimal {
        Decimal {
            thousandths: self.thousandths.saturating_sub(other.thousandths),
        }
    }
}

impl Display for Decimal {
    fn fmt<W: Write>(&self, f: &mut Formatter<W>) -> fmt::Result {
        let sign = if self.thousandths < 0 { "-" } else { "" };
        let size = self.thousandths.unsigned_abs();
        let whole = size / 1_000;
        let rest = size % 1_000;
        write!(f, "{sign}{whole}.{rest:03}")
    }
}
