// The three passes over the cells.
ghost use Rattle.std.specs.Prelude.{◌≡◌, ◌+◌, ◌*◌, ◌≤◌, ◌<◌, min, length};
ghost use Rattle.std.proofs.lemmas.List.Edits.{sets};
ghost use Rattle.cell_placing.specs.Items.{item_in, group_number};
ghost use Rattle.cell_placing.specs.Css.{Answers};
ghost use Rattle.cell_placing.specs.Steps.{Going, Passed};

use crate::words::group_of;
use crate::{Cells, Group, MOST_PLACED, Packing, Turn};

// Places cell i in the pass of a group, where it is one of that; refused by it where it is stuck.
fn place_one(cells: Cells, group: Group, i: u32, placed: &mut [u64]) -> Result<(), u32>
    requires { (i < length cells.items.now) × Going cells.packing cells.last (length cells.items.now) cells.items.now placed.old (group_number group * 256 + i) }
    ensures { Passed cells.entry.packing cells.entry.last (length cells.entry.items.now) cells.entry.items.now placed.new (group_number group * 256 + i + 1) result }
{
    if group_of(cells.items[i as usize]) != group {
        return Ok(());
    }
    let turn = Turn {
        cells,
        index: i,
        placed,
    };
    let Some(land) = turn.land_of() else {
        return Err(i);
    };
    placed[i as usize] = u64::from(land);
    Ok(())
}

// The pass of a group, refused by the first cell that is stuck.
fn place_group(cells: Cells, group: Group, placed: &mut [u64]) -> Result<(), u32>
    requires { Going cells.packing cells.last (length cells.items.now) cells.items.now placed.old (group_number group * 256) }
    ensures { Passed cells.entry.packing cells.entry.last (length cells.entry.items.now) cells.entry.items.now placed.new (group_number group * 256 + 256) result }
{
    for i in 0..cells.items.len() as u32 {
        place_one(cells, group, i, placed)?;
    }
    Ok(())
}

// Writes the words of the lands from the first place on.
fn write_lands(placed: &[u64], lands: &mut [u64; MOST_PLACED])
    requires { length placed.now ≤ 256 }
    ensures { lands.new ≡ sets lands.old 0 placed.now }
{
    lands[..placed.len()].copy_from_slice(placed);
}

// Places the cells, 256 of them at most, beside the last column line. The lent words take where each lands, in sheet order; where one is
// stuck they stay, and the first of these in placing order is answered.
pub fn place_items(
    last: u16,
    items: &[u64],
    packing: Packing,
    lands: &mut [u64; MOST_PLACED],
) -> Result<(), u32>
    ensures { Answers packing last (min (length items.now) 256) (item_in items.now) lands.old lands.new result }
{
    let held = &items[..items.len().min(MOST_PLACED)];
    let cells = Cells {
        last,
        items: held,
        packing,
    };
    let mut room: [u64; MOST_PLACED] = [0; MOST_PLACED];
    let placed = &mut room[..held.len()];
    place_group(cells, Group::FixedInBoth, placed)?;
    place_group(cells, Group::FixedInRow, placed)?;
    place_group(cells, Group::Rest, placed)?;
    write_lands(placed, lands);
    Ok(())
}
