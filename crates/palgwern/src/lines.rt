// The conversions between lines, and between lines and tracks, by argument: they need no panel.
ghost use Rattle.std.specs.Prelude.{◌≡◌};
ghost use Rattle.coordinates.specs.Answers.{grid_line_answer};
ghost use Rattle.track_counts.specs.Counts.{next_track_answer, previous_line_answer, vec_index_answer};
ghost use Rattle.library_lines.specs.Numbers.{counts_of, conversion_of, conversion_numbers, track_numbers, record_numbers};
ghost use Rattle.palgwern.specs.Lines.{grid_line_numbers, origin_zero_numbers};

use library_lines::conversion::{into_grid_line, into_origin_zero_line};
use library_lines::track::{line_record, next_track, previous_line};
use library_lines::{AxisCounts, ConversionAnswer, LineRecord, TrackNumbers};
use panel_positions::LineAnswer;

// The origin-zero line of a grid line beside so many explicit tracks, held, with its mark.
#[unsafe(no_mangle)]
pub extern "C" fn palgwern_into_origin_zero_line(line: i32, tracks: u32) -> ConversionAnswer
    ensures { result ≡ conversion_numbers (conversion_of tracks line) }
{
    ConversionAnswer::from(into_origin_zero_line(line, tracks))
}

// The grid line of an origin-zero line beside so many explicit tracks.
#[unsafe(no_mangle)]
pub extern "C" fn palgwern_into_grid_line(line: i32, tracks: u32) -> LineAnswer
    ensures { result ≡ grid_line_numbers (grid_line_answer tracks line) }
{
    LineAnswer::from(into_grid_line(line, tracks).map(|line| i32::from(line.0)))
}

// The track after an origin-zero line of an axis.
#[unsafe(no_mangle)]
pub extern "C" fn palgwern_next_track(counts: AxisCounts, line: i32) -> TrackNumbers
    ensures { result ≡ track_numbers (next_track_answer (counts_of counts) line) }
{
    TrackNumbers::from(next_track(counts, line))
}

// The origin-zero line before a track of an axis.
#[unsafe(no_mangle)]
pub extern "C" fn palgwern_previous_line(counts: AxisCounts, track: u32) -> LineAnswer
    ensures { result ≡ origin_zero_numbers (previous_line_answer (counts_of counts) track) }
{
    LineAnswer::from(previous_line(counts, track).map(|line| i32::from(line.0)))
}

// The record of an origin-zero line of an axis: that of its gutter.
#[unsafe(no_mangle)]
pub extern "C" fn palgwern_line_record(counts: AxisCounts, line: i32) -> LineRecord
    ensures { result ≡ record_numbers (vec_index_answer (counts_of counts) line) }
{
    LineRecord::from(line_record(counts, line))
}
