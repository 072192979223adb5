// One row of a picture.
ghost use Rattle.std.specs.Prelude.{◌≡◌};
ghost use Rattle.picture_words.specs.Words.{words_of};
ghost use Rattle.picture_areas.specs.Runs.{answered_drawn};
ghost use Rattle.picture_rows.specs.Steps.{picture_edges, spanned, row_in};

use crate::draw::draw_runs;
use coordinates::Fault;
use coordinates::line::MOST_TRACKS;
use panel_tables::{AreaEdges, Panel};
use panel_writes::area_record::raised;
use picture_areas::PictureAfter;
use picture_words::row::MOST_WORDS;
use picture_words::words_in;

// The most rows of a picture.
pub const MOST_ROWS: u32 = MOST_TRACKS as u32;

// The edges around the cells of a picture, of so many columns and rows.
fn picture_edges(width: u16, row: u16) -> AreaEdges
    ensures { result ≡ picture_edges width row }
{
    AreaEdges {
        rowstart: 1,
        rowend: u32::from(row) + 1,
        columnstart: 1,
        columnend: u32::from(width) + 1,
    }
}

// A panel with the tracks between edges on both axes.
fn spanned(panel: Panel, edges: AreaEdges) -> Panel
    ensures { result ≡ spanned panel edges }
{
    Panel {
        room: raised(panel.room, edges),
        ..panel
    }
}

// Row number `row` of a picture, from 1: the words of a line. Each run of a name is drawn; the answer says whether one of them breaks the picture,
// and its panel has the tracks of the row on both axes. 4: more than 10,000 words or rows; 8: a 65th name; 2: a name of more than 32 bytes. On a
// refusal the panel is as it came, and the runs before the refused one stay in the table.
#[tactic(auto, using(crate::proofs::Counts::row_wide, crate::proofs::Counts::row_far))]
pub fn draw_row(
    panel: Panel,
    words: &mut [u64],
    bytes: &mut [u8],
    line: &[u8],
    row: u32,
) -> Result<PictureAfter, Fault>
    ensures { record { answer = answered_drawn panel result; words = words.new; bytes = bytes.new } ≡ row_in panel words.old bytes.old (words_of line.now) row }
{
    let width = words_in(line);
    if MOST_WORDS < width || MOST_ROWS < row {
        return Err(Fault::Count);
    }
    let drawn = draw_runs(panel, words, bytes, line, row as u16)?;
    let edges = picture_edges(width as u16, row as u16);
    Ok(PictureAfter {
        broken: drawn.broken,
        panel: spanned(drawn.panel, edges),
    })
}
