// One axis with another inner size, in words of its own.
ghost use Rattle.std.specs.Prelude.{◌≡◌};
ghost use Rattle.sheet_end.specs.End.{answered_end};
ghost use Rattle.panel_sizes.specs.Sizes.{state_at};
ghost use Rattle.panel_resized.specs.Axes.{unended_words, ended_again, written_count, resized_axis};

use axis_tables::layout::{AXIS_WORDS, ENTRIES, part_from};
use axis_tables::write::copy_what_fits;
use axis_tables::{AxisAfter, AxisReading, AxisState};
use coordinates::Fault;
use name_entries::MOST_ENTRIES;
use panel_sizes::state_at;
use sheet_end::end_axis;

// The words of an axis without its entries.
fn unended_words(words: &[u64]) -> [u64; AXIS_WORDS]
    ensures { result ≡ unended_words words.now }
{
    let mut own = [0u64; AXIS_WORDS];
    copy_what_fits(&mut own, 0, part_from(words, 0, ENTRIES as u32));
    own
}

// The line after the last once more, on an axis of a panel, which has no open repeat.
fn end_again(
    state: AxisState,
    words: &[u64],
    own: &mut [u64; AXIS_WORDS],
) -> Result<AxisState, Fault>
    ensures { record { answer = answered_end state result; words = own.new } ≡ ended_again state words.now }
{
    let reading = AxisReading {
        seen: false,
        unended: None,
    };
    *own = unended_words(words);
    end_axis(AxisAfter { state, reading }, own)
}

// How many entries the sheet wrote out, with the inner size that the axis has.
#[tactic(auto, unfolding(crate::specs::Axes::written_count))]
fn written_count(state: AxisState, words: &[u64]) -> u32
    ensures { result ≡ written_count state words.now }
{
    let mut own = [0u64; AXIS_WORDS];
    let ended = end_again(state, words, &mut own);
    ended.unwrap_or(state).grid.entries
}

// The state of an axis with an inner size of those bits, and its words: the entries are written out anew, and the direct ones come after them.
// 4: an explicit count above 10,000; 8: more than 4,096 entries.
#[tactic(auto, unfolding(crate::specs::Axes::resized_axis))]
pub(crate) fn resize_own(
    state: AxisState,
    words: &[u64],
    inner: u32,
    own: &mut [u64; AXIS_WORDS],
) -> Result<AxisState, Fault>
    ensures { record { answer = answered_end (state_at state inner) result; words = own.new } ≡ resized_axis state words.now inner }
{
    let written = written_count(state, words);
    let direct = state.grid.entries.saturating_sub(written);
    let mut after = end_again(state_at(state, inner), words, own)?;
    let ended = after.grid.entries as usize;
    let entries = ended + direct as usize;
    if MOST_ENTRIES < entries {
        return Err(Fault::Crowded);
    }
    let further = part_from(words, ENTRIES + written as usize, direct);
    copy_what_fits(own, ENTRIES + ended, further);
    after.grid.entries = entries as u32;
    Ok(after)
}
