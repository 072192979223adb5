// A panel with another inner size of an axis: the panel of the sheet with that size, with the same direct entries.

#![tactic(auto)]

ghost use Rattle.std.specs.Prelude.{◌≡◌};
ghost use Rattle.coordinates.specs.Refusals.{number_of};
ghost use Rattle.panel_tables.specs.Regions.{area_words_in, placement_words_in};
ghost use Rattle.panel_rules.specs.Calls.{answered_entry, name_tables_in};
ghost use Rattle.panel_resized.specs.Resized.{resized_panel};

mod axis;

use crate::axis::resize_own;
use axis_tables::layout::AXIS_WORDS;
use axis_tables::write::copy_what_fits;
use coordinates::limit::STORE_BYTES;
use coordinates::{Axis, Fault};
use panel_tables::Panel;
use panel_tables::axis::{state_in, with_state};
use panel_tables::region::{PANEL_WORDS, axis_words, first_word};
use sizing::range::length_in_range;

// A panel whose axis has another inner size, by its bits: its template is written out anew, and the direct entries come after the names of
// that in their order. 3: no length in range; 4: an explicit count above 10,000; 8: more than 4,096 entries; 10: a store below 32,768 bytes.
// On a refusal the words are as they came. The stores, the areas and the placements stay as they are.
pub fn resize_axis(
    panel: Panel,
    words: &mut [u64; PANEL_WORDS],
    columnstore: &[u8],
    rowstore: &[u8],
    axis: Axis,
    inner: u32,
) -> Result<Panel, Fault>
    ensures resized { record { answer = answered_entry panel result; tables = name_tables_in words.new columnstore.now rowstore.now } ≡ resized_panel panel (name_tables_in words.old columnstore.now rowstore.now) axis inner }
    ensures others { (area_words_in words.new ≡ area_words_in words.old) × (placement_words_in words.new ≡ placement_words_in words.old) }
{
    if !length_in_range(inner) {
        return Err(Fault::Value);
    }
    let state = state_in(panel, axis);
    let mut own = [0u64; AXIS_WORDS];
    let after = resize_own(state, axis_words(words, axis), inner, &mut own)?;
    if columnstore.len().min(rowstore.len()) < STORE_BYTES {
        return Err(Fault::Short);
    }
    copy_what_fits(words, first_word(axis), &own);
    Ok(with_state(panel, axis, after))
}
