// A panel with another inner size of an axis, for programs in C and Rust.
ghost use Rattle.std.specs.Prelude.{◌≡◌};
ghost use Rattle.panel_tables.specs.Regions.{area_words_in, placement_words_in};
ghost use Rattle.panel_rules.specs.Calls.{name_tables_in};
ghost use Rattle.palgwern.specs.Resized.{resized_by_number};

use crate::axis_in;
use library_numbers::PanelAnswer;
use panel_resized::resize_axis;
use panel_sizes::size_of_no_axis;
use panel_tables::Panel;
use panel_tables::region::PANEL_WORDS;

// The panel of the sheet with another inner size of an axis, by its bits, and with the same direct entries.
#[tactic(auto, unfolding(crate::specs::Resized::resized_by_number))]
#[unsafe(no_mangle)]
pub extern "C" fn palgwern_resize(
    panel: Panel,
    words: &mut [u64; PANEL_WORDS],
    columnstore: &[u8],
    rowstore: &[u8],
    axis: u32,
    inner: u32,
) -> PanelAnswer
    ensures resized { record { answer = result; tables = name_tables_in words.new columnstore.now rowstore.now } ≡ resized_by_number panel (name_tables_in words.old columnstore.now rowstore.now) axis inner }
    ensures others { (area_words_in words.new ≡ area_words_in words.old) × (placement_words_in words.new ≡ placement_words_in words.old) }
{
    let resized = match axis_in(axis) {
        Ok(axis) => resize_axis(panel, words, columnstore, rowstore, axis, inner),
        Err(_) => Err(size_of_no_axis(inner)),
    };
    PanelAnswer {
        number: resized.err().map_or(0, u32::from),
        line: 0,
        panel: resized.unwrap_or(panel),
    }
}
