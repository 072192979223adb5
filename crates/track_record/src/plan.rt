// What is worked out once for all records of an axis.
ghost use Rattle.std.specs.Prelude.{◌≡◌, not, ◌&&◌, ◌≤◌, length};
ghost use Rattle.coordinates.specs.Refusals.{refused_by};
ghost use Rattle.template_rules.specs.Template.{components_of};
ghost use Rattle.track_rules.specs.Records.{item_at, tracks_in, records_in, open_to, axis_refusal};
ghost use Rattle.track_rules.specs.Steps.{word_totals, sum_of, written_count, plan_of};
ghost use Rattle.track_record.specs.Plans.{closed_from};

use crate::LentTracks;
use crate::component::{has_fit, repeated_of};
use crate::count::before_end;
use crate::cursor::total;
use coordinates::Fault;
use template_rules::Template;
use track_rules::{AxisTracks, Plan};

// N, the tracks of an axis.
pub fn track_count(axis: AxisTracks) -> u32
    ensures { result ≡ tracks_in axis }
{
    axis.counts.tracks()
}

// How many records an axis has: 2N + 1.
pub fn record_count(axis: AxisTracks) -> u32
    ensures { result ≡ records_in axis }
{
    2 * track_count(axis) + 1
}

// Refuses an axis by a gap out of range, and then by a count above 10,000.
#[tactic(auto, unfolding(track_rules::specs::Records::axis_refusal))]
pub fn check_axis(axis: AxisTracks) -> Result<(), Fault>
    ensures { refused_by result ≡ axis_refusal axis }
{
    if !sizing::range::sizing_in_range(axis.gap) {
        return Err(Fault::Value);
    }
    axis.counts.check()
}

// Whether a track holds an item.
pub fn holds_item(items: &[u8], index: u64) -> bool
    ensures { result ≡ item_at items.now index }
{
    items.get(index as usize).is_some_and(|item| *item != 0)
}

// How many explicit tracks the template writes.
pub fn written_count(components: &[u64], axis: AxisTracks) -> u32
    ensures { result ≡ written_count axis (word_totals axis.repetitions components.now) }
{
    let explicit = axis.counts.explicit as u64;
    let mut left = explicit;
    for word in components {
        let tracks = total(*word, axis.repetitions);
        if left <= tracks {
            return explicit as u32;
        }
        left -= tracks;
    }
    (explicit - left) as u32
}

// One past the last item, 0 where there is none.
fn last_item(items: &[u8]) -> usize
    ensures { result ≡ open_to (λ j. not (item_at items.now j)) (length items.now) }
{
    let last = items.iter().rposition(|item| *item != 0);
    last.map_or(0, |last| last + 1)
}

// Of so many tracks of a component, one past the last open one; `items` are those from its first track on.
fn open_count(items: &[u8], fit: bool, count: usize) -> usize
    ensures { result ≡ open_to (λ j. fit && not (item_at items.now j)) count }
{
    if fit {
        last_item(items.get(..count).unwrap_or(items))
    } else {
        count
    }
}

// Of the first `count` tracks of the template, one past the last open one; `items` are those from its first track on.
fn open_end(template: Template, items: &[u8], repetitions: u32, count: usize) -> usize
    requires { count ≤ sum_of (word_totals repetitions template.components.now) }
    ensures { result ≡ open_to (closed_from (word_totals repetitions template.entry.components.now) (components_of template.entry) (item_at items.now) 0) count }
{
    let mut opened = 0;
    let mut done: usize = 0;
    for word in template.components {
        if done == count {
            return opened;
        }
        let taken = before_end(total(*word, repetitions), 0, count - done);
        let rest = items.get(done..).unwrap_or(&[]);
        let last = open_count(rest, repeated_of(*word).fit, taken);
        if last != 0 {
            opened = done + last;
        }
        done += taken;
    }
    opened
}

impl LentTracks<'_> {
    // The plan of an axis. Only a template that fills the grid to its end, and has a fit repeat, can close the last track.
    pub fn make_plan(self, axis: AxisTracks) -> Plan
        ensures { result ≡ plan_of axis (components_of self.entry.template) (item_at self.entry.items.now) }
    {
        let template = self.template;
        let written = written_count(template.components, axis);
        let before = axis.counts.negative_implicit as usize;
        let tracks = track_count(axis) as usize;
        if before + (written as usize) < tracks || !has_fit(template.components) {
            return Plan {
                written,
                opened: tracks as u64,
            };
        }
        let rest = self.items.get(before..).unwrap_or(&[]);
        let opened = before + open_end(template, rest, axis.repetitions, written as usize);
        Plan {
            written,
            opened: opened as u64,
        }
    }
}
