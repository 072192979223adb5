// Which records collapse.
ghost use Rattle.std.specs.Prelude.{◌≡◌, not, ◌&&◌, ◌||◌, leb};
ghost use Rattle.track_rules.specs.Records.{item_at};

// Whether a track collapses: one that `fit` wrote and that holds no item.
pub fn track_collapses(items: &[u8], fit: bool, track: u64) -> bool
    ensures { result ≡ (fit && not (item_at items.now track)) }
{
    fit && !crate::plan::holds_item(items, track)
}

// Whether gutter `gutter`, which follows a track, collapses: with that track, and after the last open one.
pub fn gutter_collapses(collapsed: bool, opened: u64, gutter: u64) -> bool
    ensures { result ≡ (collapsed || leb opened gutter) }
{
    collapsed || opened <= gutter
}
