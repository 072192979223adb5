// Rows of conversions: explicit count, grid line, refusal, origin-zero line, the grid line back, and its mark, `y` or `n`; or explicit count, `-`, refusal,
// origin-zero line, its grid line, and refusal and tracks that it implies before the grid, and after it. Beside a refusal stand zeros and `n`.
use crate::input::{Lines, field, number_of, whole_of};
use coordinates::{Fault, GridLine, MarkedLine, OriginZeroLine};
use text::LINE_FEED;

// The explicit count of a row.
fn explicit_of(row: &[u8]) -> u16 {
    (number_of(field(row, 0)) % 65536) as u16
}

// What a row writes of an answer: a value beside no refusal, or the number of a fault beside a zero; none where it is neither.
fn written<T: Copy + Default + PartialEq>(number: u32, value: T) -> Option<Result<T, u32>> {
    match number {
        0 => Some(Ok(value)),
        fault if value == T::default() => Some(Err(fault)),
        _ => None,
    }
}

// The mark that a field writes, where it writes one.
fn mark_of(field: &[u8]) -> Option<bool> {
    match field {
        b"y" => Some(true),
        b"n" => Some(false),
        _ => None,
    }
}

// What a row writes of an origin-zero line: its number and its mark.
fn written_line(row: &[u8]) -> Option<Result<(i16, bool), u32>> {
    let held = mark_of(field(row, 5))?;
    written(number_of(field(row, 2)), (whole_of(field(row, 3)), held))
}

// Whether a grid line that is converted is, back again, the line that a field writes.
fn is_back(there: Result<MarkedLine, Fault>, explicit: u16, field: &[u8]) -> bool {
    match there {
        Ok(there) => there.value.into_grid_line(explicit) == Ok(GridLine(whole_of(field))),
        Err(_) => true,
    }
}

// Whether a row of a grid line holds.
fn is_right(row: &[u8]) -> bool {
    let explicit = explicit_of(row);
    let there = GridLine(whole_of(field(row, 1))).into_origin_zero_line(explicit);
    let answer = there
        .map(|there| (there.value.0, there.held))
        .map_err(u32::from);
    written_line(row) == Some(answer) && is_back(there, explicit, field(row, 4))
}

// Whether an answer is the refusal and the count that two fields write.
fn is_count(answer: Result<u32, Fault>, number: &[u8], count: &[u8]) -> bool {
    written(number_of(number), number_of(count)) == Some(answer.map_err(u32::from))
}

// Whether a row of an origin-zero line holds.
fn is_origin_right(row: &[u8]) -> bool {
    let explicit = explicit_of(row);
    let line = OriginZeroLine(whole_of(field(row, 3)));
    let before = line.implied_negative_implicit_tracks();
    let after = line.implied_positive_implicit_tracks(explicit);
    let back = line
        .into_grid_line(explicit)
        .map(|back| back.0)
        .map_err(u32::from);
    written(number_of(field(row, 2)), whole_of(field(row, 4))) == Some(back)
        && is_count(before, field(row, 5), field(row, 6))
        && is_count(after, field(row, 7), field(row, 8))
}

// Whether a row of either kind holds.
fn is_row_right(row: &[u8]) -> bool {
    match field(row, 1) {
        b"-" => is_origin_right(row),
        _ => is_right(row),
    }
}

// How many of the rows differ: those that hold are taken from all, since a row that a list cut short lacks is not right either.
pub fn different_rows(rows: Lines) -> u64 {
    let lines = rows.text.split(|byte| *byte == LINE_FEED);
    let right = lines
        .take(rows.count as usize)
        .filter(|row| is_row_right(row))
        .count();
    u64::from(rows.count).saturating_sub(right as u64)
}
