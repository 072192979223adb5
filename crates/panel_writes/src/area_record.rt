// What an `area` record writes: the word of its edges, its name, and the tracks that it spans.
ghost use Rattle.std.specs.Prelude.{◌≡◌};
ghost use Rattle.panel_tables.specs.View.{edge_outside, edges_outside};
ghost use Rattle.panel_tables.specs.Areas.{InAreas, answered_panel, raised, raised_to, put_area};

use axis_tables::AxisRoom;
use axis_tables::name::{named_fault, no_room, put_bytes};
use coordinates::line::LAST_EXPLICIT_LINE;
use coordinates::{Fault, set_at};
use name_entries::NamePlace;
use panel_tables::area::{AREA_BYTES, AREA_NAMES, MOST_AREAS};
use panel_tables::{AreaEdges, Panel, Room};

// Whether an edge is outside 1 to 10,001.
fn edge_outside(edge: u32) -> bool
    ensures { result ≡ edge_outside edge }
{
    !(1..=LAST_EXPLICIT_LINE).contains(&edge)
}

// Whether one of the edges is.
fn edges_outside(edges: AreaEdges) -> bool
    ensures { result ≡ edges_outside edges }
{
    edge_outside(edges.rowstart)
        || edge_outside(edges.rowend)
        || edge_outside(edges.columnstart)
        || edge_outside(edges.columnend)
}

// An axis with the tracks that an area spans.
fn raised_to(room: AxisRoom, end: u32) -> AxisRoom
    ensures { result ≡ raised_to room end }
{
    AxisRoom {
        areas: room.areas.max(end.saturating_sub(1)),
        ..room
    }
}

// Both axes with them.
pub fn raised(room: Room, edges: AreaEdges) -> Room
    ensures { result ≡ raised room edges }
{
    Room {
        columns: raised_to(room.columns, edges.columnend),
        rows: raised_to(room.rows, edges.rowend),
        ..room
    }
}

// An area. 2: a name of more than 32 bytes; 4: an edge outside 1 to 10,001; 8: a 65th area, or its name has no room.
#[tactic(auto, unfolding(panel_tables::specs::Areas::put_area))]
pub fn put_area(
    panel: Panel,
    words: &mut [u64],
    bytes: &mut [u8],
    name: &[u8],
    edges: AreaEdges,
) -> Result<Panel, Fault>
    ensures { record { answer = answered_panel panel result; words = words.new; bytes = bytes.new } ≡ put_area panel words.old bytes.old name.now edges }
{
    let length = name.len();
    let areas = panel.grid.areas;
    let used = panel.room.areabytes;
    if edges_outside(edges) {
        return Err(named_fault(length, Fault::Count));
    }
    if no_room(MOST_AREAS, AREA_BYTES as u32, areas, used, length) {
        return Err(named_fault(length, Fault::Crowded));
    }
    let name_word = u64::from(NamePlace {
        component: 0,
        place: 0,
        offset: used,
        length: length as u32,
    });
    set_at(words, areas as usize, u64::from(edges));
    set_at(words, AREA_NAMES + areas as usize, name_word);
    put_bytes(bytes, used as usize, name);
    let mut after = panel;
    after.room = raised(panel.room, edges);
    after.grid.areas = areas + 1;
    after.room.areabytes = used + length as u32;
    Ok(after)
}
