// The names that are listed.
ghost use Rattle.std.specs.Prelude.{◌≤◌, length};

use name_entries::Names;

// The names of an axis and its explicit tracks, no more of either than a panel has.
#[derive(Clone, Copy)]
pub(crate) struct ExplicitNames<'a> {
    pub names: Names<'a>,
    pub explicit: u32,
    ghost few_tracks: { explicit ≤ 10000 },
    ghost few_entries: { length names.entries.now ≤ 4096 },
}
