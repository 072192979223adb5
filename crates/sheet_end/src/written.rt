// The name entries of an axis, written out of its names and components.
ghost use Rattle.std.specs.Prelude.{◌≡◌, Ok};
ghost use Rattle.template_rules.specs.Explicit.{answered_size};
ghost use Rattle.name_template.specs.Writing.{answered_names};
ghost use Rattle.sheet_end.specs.End.{EntriesPut, components_in, names_in, entries_by, entries_put};

use axis_tables::AxisState;
use axis_tables::layout::{ENTRIES, NAMES, part_from};
use axis_tables::write::copy_what_fits;
use coordinates::Fault;
use name_entries::MOST_ENTRIES;
use name_template::TemplateNames;
use template_rules::ExplicitSize;

// The names of an axis's template, with the repetitions of its automatic repeat.
fn names_of(state: AxisState, repetitions: u32, words: &[u64]) -> TemplateNames
    ensures names { result.names.now ≡ names_in state words.now }
    ensures components { result.components.now ≡ components_in state words.now }
    ensures repetitions { result.repetitions ≡ repetitions }
{
    TemplateNames {
        names: part_from(words, NAMES, state.room.names),
        components: part_from(words, 0, state.room.template.components),
        repetitions,
    }
}

// Writes the entries of an axis into their place in the words, and answers how many there are: none where its template counts as none.
// 8: more than 4,096, and then the words stay. Names and entries lie in the same words, so a table of its own is written first.
pub(crate) fn put_entries(
    state: AxisState,
    size: ExplicitSize,
    words: &mut [u64],
) -> Result<u32, Fault>
    ensures { record { answer = answered_names result; words = words.new } ≡ entries_put words.old (entries_by state words.old (answered_size (Ok size))) }
{
    if size.template == 0 {
        return Ok(0);
    }
    let mut entries = [0u64; MOST_ENTRIES];
    let count = names_of(state, size.repetitions, words).write_names(&mut entries)?;
    copy_what_fits(words, ENTRIES, part_from(&entries, 0, count));
    Ok(count)
}
