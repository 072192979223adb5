// The numbers of placements as counts without a sign: 32,768 more.
ghost use Rattle.std.specs.Prelude.{◌≡◌, ◌<◌, pos};
ghost use Rattle.panel_tables.specs.View.{number_outside};
ghost use Rattle.panel_tables.specs.Numbers.{count_of, number_of};

// The least line index, and the largest span.
const LEAST_INDEX: i32 = i16::MIN as i32;

const LARGEST_SPAN: i32 = u16::MAX as i32;

// Whether a number is neither a line index nor a span.
pub fn number_outside(number: i32) -> bool
    ensures { result ≡ number_outside number }
{
    !(LEAST_INDEX..=LARGEST_SPAN).contains(&number)
}

// The count of a number, or of the nearest.
pub fn count_of(number: i32) -> u32
    ensures { result ≡ count_of number }
{
    (number.clamp(LEAST_INDEX, LARGEST_SPAN) - LEAST_INDEX).unsigned_abs()
}

// The number of a count.
pub(crate) fn number_of(count: u32) -> i32
    requires { count < 131072 }
    ensures { result ≡ number_of count }
{
    count as i32 + LEAST_INDEX
}
