// The template and the spare sizes of an axis, as parts of its words.
ghost use Rattle.std.specs.Prelude.{◌≡◌};
ghost use Rattle.template_rules.specs.Template.{components_of};
ghost use Rattle.track_rules.specs.Written.{spare_sizes};
ghost use Rattle.axis_tables.specs.Runs.{part_of};
ghost use Rattle.panel_rules.specs.Calls.{template_in, spares_in};

use axis_tables::AxisGrid;
use axis_tables::layout::{SPARE_MAXIMUMS, SPARE_MINIMUMS, part_from, template_in};
use template_rules::{SizeTables, Template};

// The template.
pub fn template_on(grid: AxisGrid, words: &[u64]) -> Template
    ensures template { components_of result ≡ template_in grid words.now }
    ensures components { result.components.now ≡ part_of words.now 0 grid.template.components }
    ensures minimums { result.sizes.minimums.now ≡ part_of words.now 64 grid.template.tracks }
    ensures maximums { result.sizes.maximums.now ≡ part_of words.now 2112 grid.template.tracks }
{
    template_in(words, grid.template)
}

// The spare sizes.
pub fn spares_on(grid: AxisGrid, words: &[u64]) -> SizeTables
    ensures spares { spare_sizes result ≡ spares_in grid words.now }
    ensures minimums { result.minimums.now ≡ part_of words.now 4160 grid.implicit.spares }
    ensures maximums { result.maximums.now ≡ part_of words.now 4224 grid.implicit.spares }
{
    SizeTables {
        minimums: part_from(words, SPARE_MINIMUMS, grid.implicit.spares),
        maximums: part_from(words, SPARE_MAXIMUMS, grid.implicit.spares),
    }
}
