// The placements of one axis in a run, resolved and written as numbers.
ghost use Rattle.std.specs.Prelude.{◌≡◌, ◌*◌, ◌≤◌, length};
ghost use Rattle.name_lines.specs.Areas.{axis_names};
ghost use Rattle.name_groups.specs.Groups.{Lists};
ghost use Rattle.name_resolver.specs.Placements.{answered_resolution, resolution_of};
ghost use Rattle.panel_tables.specs.Regions.{area_bytes_in, area_words_in, placement_bytes_in, placement_words_in};
ghost use Rattle.axis_tables.specs.Runs.{part_of};
ghost use Rattle.panel_resolving.specs.Chosen.{GroupsFit, OnlyOne, chosen_sets, grouping_for, numbers_by, on_axis, run_grouped};
ghost use Rattle.panel_resolving.specs.Names.{bears_by, resolution_by};

use crate::axis_run::Run;
use crate::ends::line_placement;
use crate::placing::placed_on;
use crate::put::put_placement;
use crate::resolve::resolve_line_names;
use crate::{Around, Beside};
use coordinates::Fault;
use coordinates::limit::PLACEMENT_NUMBERS;
use name_entries::{MOST_ENTRIES, Names};
use name_groups::index::group_entries;
use name_groups::key::{FEW_KEYS, Grouping, MANY_KEYS};
use name_resolver::ResolvedPlacement;
use panel_tables::placement::placement_at;
use panel_tables::region::{PANEL_BYTES, PANEL_WORDS, placement_words};

// Up to so many entries are kept in few groups, up to so many in many.
const FEW_ENTRIES: usize = 128;

const MANY_ENTRIES: usize = MOST_ENTRIES;

// So many entries that are passed over take as long as the making of groups.
const PASSED_OVER: usize = 256;

// The index of few entries and of many: a word for each key, and the entries.
const FEW_WORDS: usize = FEW_KEYS + FEW_ENTRIES;

const MANY_WORDS: usize = MANY_KEYS + MANY_ENTRIES;

// Writes the placements of the axis beside an index of the names; the others' numbers stay as they are. Answers the last that it resolved, so that one
// placement is a run of one.
pub(crate) fn write_beside(
    run: Run,
    index: &[u64],
    store: &[u8],
    words: &[u64; PANEL_WORDS],
    bytes: &[u8; PANEL_BYTES],
    numbers: &mut [i32],
) -> Result<ResolvedPlacement, Fault>
    requires count_bound { 8 * run.count ≤ length numbers.old }
    requires lists { Lists run.around.grouping index.now store.now }
    ensures { (numbers.new ≡ chosen_sets (on_axis run.around.axis (placement_words_in words.now)) (numbers_by (resolution_by run.around.explicit (bears_by run.around index.now store.now (area_words_in words.now) (area_bytes_in bytes.now)) (placement_bytes_in bytes.now)) (placement_words_in words.now)) 0 run.first run.count numbers.old) × OnlyOne run (placement_words_in words.now) (resolution_by run.around.explicit (bears_by run.around index.now store.now (area_words_in words.now) (area_bytes_in bytes.now)) (placement_bytes_in bytes.now)) (answered_resolution result) }
{
    let around = run.around;
    let beside = Beside {
        around,
        index,
        store,
        words,
        bytes,
    };
    let mut last = Err(Fault::Count);
    for i in 0..run.count {
        let place = placement_at(placement_words(words), run.first + i);
        if place.axis == around.axis {
            let line = line_placement(place);
            last = resolve_line_names(beside, line);
            put_placement(
                numbers,
                PLACEMENT_NUMBERS * i as usize,
                placed_on(last, place),
            );
        }
    }
    last
}

// The same run beside entries that are kept so.
fn run_grouped(run: Run, grouping: Grouping) -> Run
    ensures { result ≡ run_grouped run grouping }
{
    Run {
        around: Around {
            grouping,
            ..run.around
        },
        first: run.first,
        count: run.count,
    }
}

// Writes the placements of the axis beside entries that are grouped first, by an index of so many words.
fn write_grouped<const KEYS: usize, const WORDS: usize>(
    run: Run,
    names: Names,
    words: &[u64; PANEL_WORDS],
    bytes: &[u8; PANEL_BYTES],
    numbers: &mut [i32],
)
    requires count_bound { 8 * run.count ≤ length numbers.old }
    requires keys_bound { KEYS ≤ 4096 }
    requires words_bound { WORDS ≤ 5120 }
    requires grouped { GroupsFit run.around.grouping (length names.entries.now) KEYS WORDS }
    ensures { numbers.new ≡ chosen_sets (on_axis run.around.axis (placement_words_in words.now)) (numbers_by (resolution_of (axis_names run.around.explicit run.around.axis names.entry.entries.now names.entry.store.now (part_of (area_words_in words.now) 0 run.around.areas) (part_of (area_words_in words.now) 64 run.around.areas) (area_bytes_in bytes.now)) (placement_bytes_in bytes.now)) (placement_words_in words.now)) 0 run.first run.count numbers.old }
{
    let mut index = [0u64; WORDS];
    let mut keys = [0u16; KEYS];
    group_entries(run.around.grouping, names, &mut keys, &mut index);
    let _last = write_beside(run, &index, names.store, words, bytes, numbers);
}

// How the entries are kept for a run of so many placements: together where they are few, or more than an axis has.
#[tactic(auto, unfolding(crate::specs::Chosen::grouping_for))]
fn grouping_for(entries: usize, count: u32) -> Grouping
    ensures { result ≡ grouping_for entries count }
{
    if entries <= PASSED_OVER / (count as usize + 1) {
        return Grouping::Whole;
    }
    if entries <= FEW_ENTRIES {
        return Grouping::Few;
    }
    if entries <= MANY_ENTRIES {
        return Grouping::Many;
    }
    Grouping::Whole
}

// Writes the placements of the axis; the others' numbers stay as they are.
pub(crate) fn write_axis(
    run: Run,
    names: Names,
    words: &[u64; PANEL_WORDS],
    bytes: &[u8; PANEL_BYTES],
    numbers: &mut [i32],
)
    requires { 8 * run.count ≤ length numbers.old }
    ensures { numbers.new ≡ chosen_sets (on_axis run.around.axis (placement_words_in words.now)) (numbers_by (resolution_of (axis_names run.around.explicit run.around.axis names.entry.entries.now names.entry.store.now (part_of (area_words_in words.now) 0 run.around.areas) (part_of (area_words_in words.now) 64 run.around.areas) (area_bytes_in bytes.now)) (placement_bytes_in bytes.now)) (placement_words_in words.now)) 0 run.first run.count numbers.old }
{
    let grouped = run_grouped(run, grouping_for(names.entries.len(), run.count));
    match grouped.around.grouping {
        Grouping::Whole => {
            let _last = write_beside(grouped, names.entries, names.store, words, bytes, numbers);
        }
        Grouping::Few => {
            write_grouped::<FEW_ENTRIES, FEW_WORDS>(grouped, names, words, bytes, numbers)
        }
        Grouping::Many => {
            write_grouped::<MANY_ENTRIES, MANY_WORDS>(grouped, names, words, bytes, numbers)
        }
    }
}
