// Placements within a span of pixels and around a line, beside the expected text: `within` or `around`, then their numbers.
use crate::expected::Expected;
use crate::tables::{Shown, StoreLengths};
use coordinates::{Axis, Fault};
use panel_hits::{Around, AxisSpan, placements_around, placements_within};
use placement_hits::list::MOST_HITS;

// How many item bytes, and how many bytes of both stores, are lent.
#[derive(Clone, Copy, Debug, PartialEq, Eq)]
pub struct ListLengths {
    pub items: u32,
    pub stores: StoreLengths,
}

// The placements that are listed: those within a span, or around a line.
#[derive(Clone, Copy, Debug, PartialEq, Eq)]
pub enum Listed {
    Within(AxisSpan),
    Around(Around),
}

impl Listed {
    // The axis.
    fn axis(self) -> Axis {
        match self {
            Listed::Within(span) => span.axis,
            Listed::Around(around) => around.axis,
        }
    }

    // The word of a list.
    fn word(self) -> &'static [u8] {
        match self {
            Listed::Within(_) => b"within",
            Listed::Around(_) => b"around",
        }
    }

    // Lists the placements of a panel.
    fn list(self, shown: Shown, items: &[u8], hits: &mut [u32; MOST_HITS]) -> Result<u32, Fault> {
        match self {
            Listed::Within(span) => placements_within(shown.grid, shown.lent, items, span, hits),
            Listed::Around(around) => placements_around(
                shown.grid, shown.lent, items, around, hits,
            ),
        }
    }
}

// A list: its word, and its numbers, each after a tab.
pub fn seen_list<'a>(
    expected: Expected<'a>,
    listed: Listed,
    lengths: ListLengths,
    shown: Shown,
) -> Expected<'a> {
    let mut hits = [0u32; MOST_HITS];
    let lent = shown.with_stores(lengths.stores);
    let items = lent.items(listed.axis(), lengths.items);
    let count = match listed.list(lent, items, &mut hits) {
        Ok(count) => count as usize,
        Err(fault) => return expected.refused(fault, 0),
    };
    let mut seen = expected.part(listed.word());
    for hit in hits.iter().take(count) {
        seen = seen.part(b"\t").number(*hit);
    }
    seen.part(b"\n")
}
