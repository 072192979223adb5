// The words of an axis: where each region starts, and how they are packed.
ghost use Rattle.std.specs.Prelude.{◌≡◌, take, drop};
ghost use Rattle.axis_tables.specs.Runs.{part_of};

use crate::TemplateCounts;
use coordinates::limit::STORE_BYTES;
use coordinates::line::MOST_TRACKS;
use coordinates::part_of;
use name_entries::MOST_ENTRIES;
use template_rules::component::MOST_COMPONENTS;
use template_rules::{SizeTables, Template};

// The most tracks of a template.
pub const TEMPLATE_TRACKS: usize = 2048;

// The most spare sizes of an axis.
pub const MOST_SPARES: usize = 64;

// The most `name` records of an axis.
pub const MOST_NAMES: usize = 4096;

// Components are the first words.
pub const MINIMUMS: usize = MOST_COMPONENTS;

pub const MAXIMUMS: usize = MINIMUMS + TEMPLATE_TRACKS;

pub const SPARE_MINIMUMS: usize = MAXIMUMS + TEMPLATE_TRACKS;

pub const SPARE_MAXIMUMS: usize = SPARE_MINIMUMS + MOST_SPARES;

pub const NAMES: usize = SPARE_MAXIMUMS + MOST_SPARES;

pub const ENTRIES: usize = NAMES + MOST_NAMES;

pub const AXIS_WORDS: usize = ENTRIES + MOST_ENTRIES;

pub const AXIS_MARKS: usize = 3 * MOST_TRACKS as usize;

pub const AXIS_BYTES: usize = STORE_BYTES;

// So many items from a place on, cut where they end.
pub fn part_from<T>(items: &[T], first: usize, length: u32) -> &[T]
    ensures { result.now ≡ take length (drop first items.now) }
{
    part_of(items, first, length as usize)
}

// The template of an axis with so many components and tracks, as parts of its words.
pub fn template_in(words: &[u64], counts: TemplateCounts) -> Template
    ensures components { result.components.now ≡ part_of words.now 0 counts.components }
    ensures minimums { result.sizes.minimums.now ≡ part_of words.now 64 counts.tracks }
    ensures maximums { result.sizes.maximums.now ≡ part_of words.now 2112 counts.tracks }
{
    let sizes = SizeTables {
        minimums: part_from(words, MINIMUMS, counts.tracks),
        maximums: part_from(words, MAXIMUMS, counts.tracks),
    };
    Template {
        components: part_from(words, 0, counts.components),
        sizes,
    }
}
