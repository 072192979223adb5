// The names of one component.
ghost use Rattle.std.specs.Prelude.{◌≡◌, ◌+◌, ◌≤◌, ◌<◌, length, get_or, drop};
ghost use Rattle.name_template.specs.Records.{leading};
ghost use Rattle.name_template.specs.Steps.{component_names};

use crate::record::stands_there;
use crate::repeat::{line_after, repetitions_written, times_of};
use crate::{ComponentNames, TemplateNames};
use template_rules::GridTemplateComponent;

impl TemplateNames<'_> {
    // The end of the records from a place on that stand before a component, or inside it.
    pub(crate) fn end_of_names(self, at: usize, component: u64, inside: bool) -> usize
        requires { at ≤ length self.names.now }
        ensures { result ≡ at + leading inside component (drop at self.entry.names.now) }
    {
        let standing = self.names[at..]
            .iter()
            .take_while(|word| stands_there(**word, component, inside));
        at + standing.count()
    }

    // The names of a component that begins on a line, from a place of the records on.
    pub(crate) fn component_names(self, at: usize, component: usize, line: u64) -> ComponentNames
        requires { (at ≤ length self.names.now) × (component < length self.components.now) × (line ≤ 4294967296) }
        ensures value { result ≡ component_names self.entry.names.now at (get_or self.entry.components.now component 0) component line self.entry.repetitions }
        ensures few { result.tracks ≤ 65535 }
    {
        let before = self.end_of_names(at, component as u64, false);
        let inside = self.end_of_names(before, component as u64, true);
        let parts = GridTemplateComponent::from(self.components[component]);
        let count = parts.count;
        let tracks = parts.length;
        let times = times_of(count, u64::from(self.repetitions));
        let written = repetitions_written(times, line, tracks);
        ComponentNames {
            before,
            inside,
            times: written,
            tracks,
            line: line_after(times, line, tracks, written),
        }
    }
}
