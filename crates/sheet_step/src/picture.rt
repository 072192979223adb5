// What a row of a picture does to the panel: it is drawn into the areas' parts of the words and of the bytes.
ghost use Rattle.std.specs.Prelude.{◌≡◌, ◌<◌, cond, length};
ghost use Rattle.coordinates.specs.Refusals.{refused_by};
ghost use Rattle.panel_tables.specs.Readings.{picture_reading};
ghost use Rattle.picture_areas.specs.Runs.{answered_drawn};
ghost use Rattle.picture_words.specs.Words.{words_of};
ghost use Rattle.sheet_rules.specs.Lines.{late_at};
ghost use Rattle.sheet_rules.specs.Steps.{stayed, width_fault, with_row, held_row};
ghost use Rattle.sheet_step.specs.Drafts.{held_of};
ghost use Rattle.sheet_step.specs.Regions.{on_drawing};

use crate::{Draft, first_refusal};
use coordinates::Fault;
use panel_tables::area::{AREA_BYTES, AREA_WORDS};
use panel_tables::region::{AREA_NAMES_START, AREAS, PANEL_BYTES, PANEL_WORDS};
use panel_tables::stage::Stage;
use panel_tables::{Panel, PictureReading};
use picture_areas::PictureAfter;
use picture_rows::draw_row;
use picture_rows::row::MOST_ROWS;
use sheet_faults::fault::late_at;

// What is kept after a row; nothing mends a broken picture.
fn with_row(picture: PictureReading, width: u32, broken: bool) -> PictureReading
    requires { picture.rows < 10000 }
    ensures { picture_reading result ≡ with_row (picture_reading picture) width broken }
{
    PictureReading {
        rows: picture.rows + 1,
        width: Some(width),
        broken: broken || picture.broken,
    }
}

// Another width than the first row's is refused.
fn check_width(picture: PictureReading, width: u32) -> Result<(), Fault>
    ensures { refused_by result ≡ width_fault (picture_reading picture) width }
{
    match picture.width {
        Some(first) if width != first => Err(Fault::Unequal),
        _ => Ok(()),
    }
}

// A row drawn into the areas' parts of the words and of the bytes.
fn on_drawing(
    panel: Panel,
    words: &mut [u64; PANEL_WORDS],
    bytes: &mut [u8; PANEL_BYTES],
    line: &[u8],
    row: u32,
) -> Result<PictureAfter, Fault>
    ensures drawn { record { answer = answered_drawn panel result; words = words.new; bytes = bytes.new } ≡ on_drawing panel words.old bytes.old (words_of line.now) row }
    ensures lengths { (length words.new ≡ 26368) × (length bytes.new ≡ 94816) }
{
    let words = &mut words[AREAS..AREAS + AREA_WORDS];
    let bytes = &mut bytes[AREA_NAMES_START..AREA_NAMES_START + AREA_BYTES];
    draw_row(panel, words, bytes, line, row)
}

impl Draft {
    // A row of so many words. A late one draws nothing; 8 for a row too many or a 65th name, 13 for another width than the first row's.
    pub(crate) fn draw(&mut self, line: &[u8], width: u32) -> Result<(), Fault>
        ensures { record { fault = refused_by result; held = held_of self.new } ≡ cond (late_at 2 (held_of self.old).reading.stage) (stayed (held_of self.old)) (held_row (held_of self.old) (words_of line.now) width) }
    {
        if late_at(Stage::Rows, self.reading.stage) {
            return Ok(());
        }
        let before = self.reading.picture;
        if MOST_ROWS <= before.rows {
            return Err(Fault::Crowded);
        }
        let panel = self.panel;
        let row = before.rows + 1;
        let drawn = on_drawing(panel, &mut self.words, &mut self.bytes, line, row);
        let unchanged = PictureAfter {
            broken: false,
            panel,
        };
        let after = drawn.unwrap_or(unchanged);
        self.panel = after.panel;
        self.reading.picture = with_row(before, width, after.broken);
        first_refusal(drawn, check_width(before, width))
    }
}
