// The line-name lists beside the expected text: `names`, axis, line, then its names.
use crate::expected::Expected;
use crate::tables::Shown;
use coordinates::Axis;
use coordinates::line::MOST_TRACKS;
use name_entries::MOST_ENTRIES;
use panel_calls::size::line_count;
use panel_names::LentNames;
use panel_names::naming::line_name;

impl<'a> Shown<'a> {
    // A name of a line of an axis by its place, empty where there is none.
    fn name(self, axis: Axis, line: u32, place: u32) -> &'a [u8] {
        line_name(self.grid, LentNames::from(self.lent), axis, line, place)
    }
}

// The names of a line, each after a tab.
fn seen_list<'a>(expected: Expected<'a>, shown: Shown, axis: Axis, line: u32) -> Expected<'a> {
    let mut seen = expected;
    for place in 0..MOST_ENTRIES as u32 {
        let name = shown.name(axis, line, place);
        if name.is_empty() {
            break;
        }
        seen = seen.part(b"\t").part(name);
    }
    seen
}

// The list of one line; a cut text has none that is empty.
fn seen_line<'a>(
    expected: Expected<'a>,
    cut: bool,
    shown: Shown,
    axis: Axis,
    line: u32,
) -> Expected<'a> {
    if cut && shown.name(axis, line, 0).is_empty() {
        return expected;
    }
    let head = expected.part(b"names\t").axis(axis).part(b"\t");
    seen_list(head.number(line), shown, axis, line).part(b"\n")
}

// The lists of an axis.
fn seen_lists<'a>(expected: Expected<'a>, cut: bool, shown: Shown, axis: Axis) -> Expected<'a> {
    let count = line_count(shown.grid, axis).min(u64::from(MOST_TRACKS) + 1) as u32;
    let mut seen = expected;
    for line in 1..=count {
        seen = seen_line(seen, cut, shown, axis, line);
    }
    seen
}

// The lists of both axes, columns first.
pub fn seen_names<'a>(expected: Expected<'a>, cut: bool, shown: Shown) -> Expected<'a> {
    let columns = seen_lists(expected, cut, shown, Axis::Column);
    seen_lists(columns, cut, shown, Axis::Row)
}
