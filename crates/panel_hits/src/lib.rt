// The placements of a panel under the cursor (document 02, Req 01): those within a span of pixels, and those around a line.

#![tactic(auto)]

ghost use Rattle.std.specs.Prelude.{◌≡◌};
ghost use Rattle.panel_hits.specs.Settled.{lent_of};
ghost use Rattle.panel_hits.specs.Lists.{WrittenHits, answered_hits, placements_within, placements_around};

mod refusal;
mod settled;

use coordinates::{Axis, Fault};
use line_positions::Span;
use panel_positions::lines_within;
use panel_tables::{Grid, LentPanel};
use placement_hits::Question;
use placement_hits::list::MOST_HITS;
use placement_hits::place::line_place;
use refusal::{check_line, check_stores, checked};

// A span of pixels on an axis, by the bits of its ends.
#[derive(Clone, Copy, Debug, PartialEq, Eq)]
pub struct AxisSpan {
    pub axis: Axis,
    pub bits: Span<u32>,
}

// A grid line of an axis.
#[derive(Clone, Copy, Debug, PartialEq, Eq)]
pub struct Around {
    pub axis: Axis,
    pub line: i32,
}

// Lists the placements with both lines within a span, ends included, by their indexes. Refuses bits that are no length in range by 3,
// then counts that no sheet gives by 4, item bytes below N or a short store by 10, and a record with no definite size by 11.
pub fn placements_within(
    grid: Grid,
    lent: LentPanel,
    items: &[u8],
    span: AxisSpan,
    hits: &mut [u32; MOST_HITS],
) -> Result<u32, Fault>
    ensures { record { answer = answered_hits result; hits = hits.new } ≡ placements_within grid lent.entry.words.now (lent_of lent.entry) items.now span hits.old }
{
    let lines = lines_within(grid, lent.words, span.axis, items, span.bits);
    let stores = check_stores(lent);
    let within = checked(lines, stores)?;
    Ok(settled::write_settled(
        grid,
        lent,
        span.axis,
        Question::Within(within.below, within.upto),
        hits,
    ))
}

// Lists the placements with a grid line strictly between their own, by their indexes. Refuses counts that no sheet gives and a line
// outside -32,768..32,767 by 4, then line 0 by 9, item bytes below N or a short store by 10, and a record with no definite size by 11.
pub fn placements_around(
    grid: Grid,
    lent: LentPanel,
    items: &[u8],
    around: Around,
    hits: &mut [u32; MOST_HITS],
) -> Result<u32, Fault>
    ensures { record { answer = answered_hits result; hits = hits.new } ≡ placements_around grid lent.entry.words.now (lent_of lent.entry) items.now around hits.old }
{
    let axis = around.axis;
    let lines = lines_within(grid, lent.words, axis, items, Span::at(0));
    let stores = check_stores(lent);
    checked(checked(lines, stores), check_line(around.line))?;
    let place = line_place(settled::counts_in(grid, axis), around.line);
    Ok(settled::write_settled(grid, lent, axis, Question::Around(place), hits))
}
