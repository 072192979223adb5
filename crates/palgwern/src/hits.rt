// The two lists of placements under the cursor.
ghost use Rattle.std.specs.Prelude.{◌≡◌};
ghost use Rattle.panel_hits.specs.Settled.{lent_in, lent_of};
ghost use Rattle.panel_hits.specs.Lists.{answered_hits};
ghost use Rattle.palgwern.specs.Hits.{ListedHits, listed_hits, hits_within, hits_around};

use crate::axis_in;
use coordinates::Fault;
use library_numbers::CountAnswer;
use line_positions::Span;
use panel_hits::{Around, AxisSpan};
use panel_positions::positions_on_no_axis;
use panel_tables::region::{PANEL_BYTES, PANEL_WORDS};
use panel_tables::{Grid, LentPanel};
use placement_hits::list::MOST_HITS;

// The count of a list, or its refusal.
fn hits_count(found: Result<u32, Fault>) -> CountAnswer
    ensures { result ≡ record { number = (answered_hits found).number; count = (answered_hits found).count } }
{
    CountAnswer::from(found.map(u64::from))
}

// The placements of an axis with both lines within a span of pixels, ends included, by their indexes.
#[tactic(auto, unfolding(crate::specs::Hits::hits_within))]
#[unsafe(no_mangle)]
pub extern "C" fn palgwern_placements_within(
    grid: Grid,
    words: &[u64; PANEL_WORDS],
    bytes: &[u8; PANEL_BYTES],
    columnstore: &[u8],
    rowstore: &[u8],
    axis: u32,
    items: &[u8],
    low: u32,
    high: u32,
    hits: &mut [u32; MOST_HITS],
) -> CountAnswer
    ensures { record { answer = result; hits = hits.new } ≡ hits_within grid words.now (lent_in words.now bytes.now columnstore.now rowstore.now) axis items.now low high hits.old }
{
    let bits = Span { low, high };
    let Ok(axis) = axis_in(axis) else {
        return CountAnswer::from(Err(positions_on_no_axis(bits)));
    };
    let lent = LentPanel {
        words,
        bytes,
        columnstore,
        rowstore,
    };
    let span = AxisSpan { axis, bits };
    hits_count(panel_hits::placements_within(grid, lent, items, span, hits))
}

// Lists the placements of an axis, by its number, around a grid line.
#[tactic(auto, unfolding(crate::specs::Hits::hits_around))]
fn list_around(
    grid: Grid,
    lent: LentPanel,
    axis: u32,
    items: &[u8],
    line: i32,
    hits: &mut [u32; MOST_HITS],
) -> Result<u32, Fault>
    ensures { listed_hits (record { answer = answered_hits result; hits = hits.new }) ≡ hits_around grid lent.entry.words.now (lent_of lent.entry) axis items.now line hits.old }
{
    let axis = axis_in(axis)?;
    let around = Around { axis, line };
    panel_hits::placements_around(grid, lent, items, around, hits)
}

// The placements of an axis with a grid line strictly between their own, by their indexes.
#[unsafe(no_mangle)]
pub extern "C" fn palgwern_placements_around(
    grid: Grid,
    words: &[u64; PANEL_WORDS],
    bytes: &[u8; PANEL_BYTES],
    columnstore: &[u8],
    rowstore: &[u8],
    axis: u32,
    items: &[u8],
    line: i32,
    hits: &mut [u32; MOST_HITS],
) -> CountAnswer
    ensures { record { answer = result; hits = hits.new } ≡ hits_around grid words.now (lent_in words.now bytes.now columnstore.now rowstore.now) axis items.now line hits.old }
{
    let lent = LentPanel {
        words,
        bytes,
        columnstore,
        rowstore,
    };
    hits_count(list_around(grid, lent, axis, items, line, hits))
}
