// A name that is tried, beside the expected text: `tried` with how many placements and cells there are; for each placement `place`, or
// `settled` where it is a cell's half, with its axis, its ends and their marks; and for each cell `cell` with its lines.
use crate::cells::{packing_of, seen_land};
use crate::expected::Expected;
use crate::input::{field, number_of};
use crate::marks::seen_held;
use crate::tables::{Shown, StoreLengths};
use cell_placing::MOST_PLACED;
use coordinates::Axis;
use coordinates::limit::{PLACEMENT_NUMBERS, PLACEMENT_RUN};
use free_cells::Rectangle;
use name_resolver::HeldEnds;
use panel_tables::Panel;
use panel_trial::{Trial, try_name};

// What is tried, its name, and how many bytes of both stores are lent.
#[derive(Clone, Copy, Debug, PartialEq, Eq)]
pub struct TriedName<'a> {
    trial: Trial,
    name: &'a [u8],
    stores: StoreLengths,
}

impl<'a> TriedName<'a> {
    // What the line of a question tries in an axis.
    pub fn written(axis: Axis, question: &'a [u8]) -> TriedName<'a> {
        TriedName {
            trial: Trial {
                axis,
                line: number_of(field(question, 2)),
                packing: packing_of(field(question, 4)),
            },
            name: field(question, 3),
            stores: StoreLengths::written(field(question, 5), field(question, 6)),
        }
    }
}

// Number k of a placement of a run.
fn number_at(placement: &[i32], k: usize) -> i32 {
    placement.get(k).copied().unwrap_or(0)
}

// The word of a placement and its axis: the number of a half's axis is 2 more.
fn seen_axis<'a>(expected: Expected<'a>, axis: i32) -> Expected<'a> {
    match axis {
        0 => expected.part(b"place\tc"),
        1 => expected.part(b"place\tr"),
        2 => expected.part(b"settled\tc"),
        _ => expected.part(b"settled\tr"),
    }
}

// One end: its kind and its number.
fn seen_end<'a>(expected: Expected<'a>, kind: i32, number: i32) -> Expected<'a> {
    let seen = match kind {
        1 => expected.part(b"\tline\t"),
        3 => expected.part(b"\tspan\t"),
        _ => expected.part(b"\tauto\t"),
    };
    seen.number(number)
}

// The line of a placement.
fn seen_placement<'a>(expected: Expected<'a>, placement: &[i32]) -> Expected<'a> {
    let axis = seen_axis(expected, number_at(placement, 1));
    let start = seen_end(axis, number_at(placement, 2), number_at(placement, 3));
    let end = seen_end(start, number_at(placement, 4), number_at(placement, 5));
    let held = HeldEnds {
        start: number_at(placement, 6) != 0,
        end: number_at(placement, 7) != 0,
    };
    seen_held(end, held)
}

// The lines of so many placements.
fn seen_placements<'a>(
    expected: Expected<'a>,
    numbers: &[i32; PLACEMENT_RUN],
    count: u32,
) -> Expected<'a> {
    let mut seen = expected;
    for placement in numbers.chunks_exact(PLACEMENT_NUMBERS).take(count as usize) {
        seen = seen_placement(seen, placement);
    }
    seen
}

// The lines of so many cells.
fn seen_lands<'a>(expected: Expected<'a>, lands: &[u64; MOST_PLACED], count: u32) -> Expected<'a> {
    let mut seen = expected;
    for land in lands.iter().take(count as usize) {
        seen = seen_land(seen.part(b"cell"), Rectangle::from(*land)).part(b"\n");
    }
    seen
}

// What a trial answers.
pub fn seen_trial<'a>(expected: Expected<'a>, tried: TriedName, shown: Shown) -> Expected<'a> {
    let mut numbers = [0i32; PLACEMENT_RUN];
    let mut lands = [0u64; MOST_PLACED];
    let lent = shown.with_stores(tried.stores);
    let panel = Panel {
        grid: lent.grid,
        room: lent.room,
    };
    match try_name(
        panel,
        lent.lent,
        tried.trial,
        tried.name,
        &mut numbers,
        &mut lands,
    ) {
        Ok(counts) => {
            let placements = expected.part(b"tried\t").number(counts.placements);
            let head = placements.part(b"\t").number(counts.cells).part(b"\n");
            seen_lands(
                seen_placements(head, &numbers, counts.placements),
                &lands,
                counts.cells,
            )
        }
        Err(told) => expected.refused(told.fault, told.line),
    }
}
