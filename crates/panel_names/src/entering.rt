// Direct entries of a line and a name in an axis of a panel.
ghost use Rattle.std.specs.Prelude.{◌≡◌, length, Ok};
ghost use Rattle.coordinates.specs.Refusals.{refusal_of, refused_by};
ghost use Rattle.panel_tables.specs.Axes.{state_in};
ghost use Rattle.name_entries.specs.LineNames.{of_axis};
ghost use Rattle.panel_tables.specs.Regions.{area_words_in, placement_words_in};
ghost use Rattle.panel_rules.specs.Calls.{NameTables, EnteredName, answered_entry, enter_name, name_tables_in};
ghost use Rattle.panel_names.specs.Entered.{Roomy, EnteredAxis, entered_on, entered_name};

use axis_tables::layout::ENTRIES;
use axis_tables::name::put_bytes;
use axis_tables::{AxisGrid, AxisRoom};
use coordinates::{Axis, Fault};
use name_entries::NameEntry;
use name_entries::enter::check_entry;
use panel_tables::Panel;
use panel_tables::axis::state_in;
use panel_tables::region::{PANEL_WORDS, first_word};

// Writes an entry to the words of an axis and its name's bytes to a store, and counts both in the axis.
fn enter_on(
    grid: &mut AxisGrid,
    room: &mut AxisRoom,
    words: &mut [u64; PANEL_WORDS],
    axis: Axis,
    store: &mut [u8],
    line: u32,
    name: &[u8],
)
    requires { Roomy (record { grid = grid.old; room = room.old }) (length store.old) name.now }
    ensures { record { state = record { grid = grid.new; room = room.new }; words = words.new; store = store.new } ≡ entered_on (record { grid = grid.old; room = room.old }) axis words.old store.old line name.now }
{
    let length = name.len();
    let entries = grid.entries;
    let used = room.used;
    let first = first_word(axis);
    let entry = NameEntry {
        line,
        offset: used,
        length: length as u32,
    };
    words[first + (ENTRIES + entries as usize)] = u64::from(entry);
    put_bytes(store, used as usize, name);
    grid.entries = entries + 1;
    room.used = used + length as u32;
}

// Writes an entry that nothing refuses to its axis.
fn enter_in(
    panel: &mut Panel,
    words: &mut [u64; PANEL_WORDS],
    columnstore: &mut [u8],
    rowstore: &mut [u8],
    axis: Axis,
    line: u32,
    name: &[u8],
)
    requires { Roomy (state_in panel.old axis) (length (of_axis axis columnstore.old rowstore.old)) name.now }
    ensures rowstore_after { record { answer = answered_entry panel.old (Ok panel.new); tables = name_tables_in words.new columnstore.new rowstore.new } ≡ entered_name panel.old (name_tables_in words.old columnstore.old rowstore.old) axis line name.now }
    ensures others { (area_words_in words.new ≡ area_words_in words.old) × (placement_words_in words.new ≡ placement_words_in words.old) }
{
    match axis {
        Axis::Column => enter_on(
            &mut panel.grid.columns,
            &mut panel.room.columns,
            words,
            Axis::Column,
            columnstore,
            line,
            name,
        ),
        Axis::Row => enter_on(
            &mut panel.grid.rows,
            &mut panel.room.rows,
            words,
            Axis::Row,
            rowstore,
            line,
            name,
        ),
    }
}

// Enters a line and a name in an axis of the panel that is lent. 2: no name; 4: a line outside 1 to 20,000; 8: no room; 10: a store
// below 32,768 bytes. On a refusal the panel is as it came. The areas and the placements stay as they are.
pub fn enter_in_place(
    panel: &mut Panel,
    words: &mut [u64; PANEL_WORDS],
    columnstore: &mut [u8],
    rowstore: &mut [u8],
    axis: Axis,
    line: u32,
    name: &[u8],
) -> Result<(), Fault>
    ensures rowstore_after { record { answer = record { refusal = refusal_of (refused_by result); panel = panel.new }; tables = name_tables_in words.new columnstore.new rowstore.new } ≡ enter_name panel.old (name_tables_in words.old columnstore.old rowstore.old) axis line name.now }
    ensures others { (area_words_in words.new ≡ area_words_in words.old) × (placement_words_in words.new ≡ placement_words_in words.old) }
{
    let state = state_in(*panel, axis);
    let shorter = columnstore.len().min(rowstore.len());
    check_entry(shorter, state.grid.entries, state.room.used, line, name)?;
    enter_in(panel, words, columnstore, rowstore, axis, line, name);
    Ok(())
}

// The same of a panel by value, which is answered.
pub fn enter_name(
    panel: Panel,
    words: &mut [u64; PANEL_WORDS],
    columnstore: &mut [u8],
    rowstore: &mut [u8],
    axis: Axis,
    line: u32,
    name: &[u8],
) -> Result<Panel, Fault>
    ensures rowstore_after { record { answer = answered_entry panel result; tables = name_tables_in words.new columnstore.new rowstore.new } ≡ enter_name panel (name_tables_in words.old columnstore.old rowstore.old) axis line name.now }
    ensures others { (area_words_in words.new ≡ area_words_in words.old) × (placement_words_in words.new ≡ placement_words_in words.old) }
{
    let mut after = panel;
    enter_in_place(&mut after, words, columnstore, rowstore, axis, line, name)?;
    Ok(after)
}
