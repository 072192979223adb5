// One run of a drawn name.
ghost use Rattle.std.specs.Prelude.{◌≡◌};
ghost use Rattle.picture_areas.specs.Runs.{answered_drawn, draw_in};

use crate::grow::grow_area;
use coordinates::Fault;
use panel_tables::area::area_index;
use panel_tables::{AreaEdges, Panel};
use panel_writes::area_record::put_area;

// What a run or a row leaves: whether it breaks the picture, and the panel after it.
#[derive(Clone, Copy, Debug, PartialEq, Eq)]
pub struct PictureAfter {
    pub broken: bool,
    pub panel: Panel,
}

// A run of a name, with the edges of its cells. A new name is one area more: 4 for an edge outside 1 to 10,001, 8 for a 65th area
// or a name that has no room. A known one goes on into the row of the run, or breaks the picture.
#[tactic(auto, using(crate::proofs::Runs::place_drawn))]
pub fn draw_run(
    panel: Panel,
    words: &mut [u64],
    bytes: &mut [u8],
    name: &[u8],
    run: AreaEdges,
) -> Result<PictureAfter, Fault>
    ensures { record { answer = answered_drawn panel result; words = words.new; bytes = bytes.new } ≡ draw_in panel words.old bytes.old name.now run }
{
    if let Some(index) = area_index(panel.grid.areas, words, bytes, name) {
        let broken = !grow_area(words, index, run);
        return Ok(PictureAfter { broken, panel });
    }
    let panel = put_area(panel, words, bytes, name, run)?;
    Ok(PictureAfter {
        broken: false,
        panel,
    })
}
