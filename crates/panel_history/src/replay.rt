// The edits of a history's first lines made again on a draft: those of the sheet's kinds before the end, direct entries after it.
ghost use Rattle.std.specs.Prelude.{◌≡◌};
ghost use Rattle.coordinates.specs.Refusals.{refused_by};
ghost use Rattle.sheet_step.specs.Drafts.{held_of};
ghost use Rattle.panel_edits.specs.Applied.{applied_step};
ghost use Rattle.panel_edits.specs.Entered.{entered};
ghost use Rattle.panel_history.specs.Steps.{ended_lines, passed, placed_in, stepped_in};

use coordinates::Fault;
use history_lines::find_line;
use panel_edits::{apply, enter};
use sheet::end::end_panel;
use sheet_step::Draft;
use text::part_at;

// The texts of the first lines before the end, and the place after these lines. None where a line is not there, or its text is refused.
pub(crate) fn apply_lines(draft: &mut Draft, lines: &[u8], count: u64) -> Option<usize>
    ensures { record { place = result; held = held_of draft.new } ≡ placed_in (passed applied_step count lines.now (held_of draft.old)) }
{
    let mut at = 0;
    for number in 1..=count {
        let line = find_line(lines, at, number)?;
        apply(draft, part_at(lines, line.text)).ok()?;
        at = line.after;
    }
    Some(at)
}

// The direct entries among them, after the end.
fn enter_lines(draft: &mut Draft, lines: &[u8], count: u64) -> Result<(), Fault>
    ensures { record { fault = refused_by result; held = held_of draft.new } ≡ stepped_in (passed entered count lines.now (held_of draft.old)) }
{
    let mut at = 0;
    for number in 1..=count {
        let Some(line) = find_line(lines, at, number) else {
            return Err(Fault::NoStep);
        };
        enter(draft, part_at(lines, line.text))?;
        at = line.after;
    }
    Ok(())
}

// The end after the lines of a sheet and those texts, and the direct entries among the texts.
pub(crate) fn end_lines(draft: &mut Draft, lines: &[u8], count: u64) -> Result<(), Fault>
    ensures { record { fault = refused_by result; held = held_of draft.new } ≡ ended_lines count lines.now (held_of draft.old) }
{
    end_panel(draft)?;
    enter_lines(draft, lines, count)
}
