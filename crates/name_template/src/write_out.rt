// The template's names written into the table of entries.
ghost use Rattle.std.specs.Prelude.{◌≡◌, map, ◌+◌, ◌-◌, ◌*◌, ◌≤◌, length};
ghost use Rattle.std.proofs.lemmas.List.Edits.{sets};
ghost use Rattle.name_template.specs.Writing.{answered_names, entry_on, entries_on, written_entries, entry_word, names_written};
ghost use Rattle.name_template.specs.Steps.{copies_on, component_count, component_entries, Writable};

use crate::{ComponentNames, MOST_COMPONENTS, TemplateNames};
use coordinates::Fault;
use name_entries::{MOST_ENTRIES, NameEntry, NamePlace};

// The word of a record's entry, where its component or the repetition begins on that line.
#[tactic(auto, unfolding(name_entries::specs::Places::name_place))]
fn word_on(line: u64, word: u64) -> u64
    requires { line ≤ 2147483648 }
    ensures { result ≡ entry_word (entry_on line word) }
{
    let record = NamePlace::from(word);
    let on = line + u64::from(record.place.saturating_sub(1));
    u64::from(NameEntry {
        line: on as u32,
        offset: record.offset,
        length: record.length,
    })
}

// Writes the entries of some records to the front of others, one after the other.
fn write_once(names: &[u64], line: u64, entries: &mut [u64])
    requires { (line ≤ 2147483648) × (length names.now ≤ length entries.old) }
    ensures { entries.new ≡ sets entries.old 0 (map entry_word (entries_on line names.now)) }
{
    for (j, word) in names.iter().enumerate() {
        entries[j] = word_on(line, *word);
    }
}

// Writes the entries of some records so many times, each time so many lines further on. Answers how many these are.
fn write_copies(names: &[u64], times: u64, line: u64, tracks: u64, entries: &mut [u64]) -> usize
    requires { (line + times * tracks ≤ 2147483648) × (times * length names.now ≤ length entries.old) }
    ensures { (result ≡ times * length names.now) × (entries.new ≡ sets entries.old 0 (map entry_word (copies_on times line tracks names.now))) }
{
    if names.is_empty() {
        return 0;
    }
    let mut on = line;
    let mut count = 0;
    for done in 0..times {
        write_once(names, on, &mut entries[count..]);
        on += tracks;
        count += names.len();
    }
    count
}

impl TemplateNames<'_> {
    // Writes the entries of a component's names. Answers how many these are.
    fn write_component(
        self,
        at: usize,
        component: ComponentNames,
        line: u64,
        entries: &mut [u64],
    ) -> usize
        requires { Writable self.names.now at component line (length entries.old) }
        ensures { (result ≡ component_count at component) × (entries.new ≡ sets entries.old 0 (map entry_word (component_entries self.entry.names.now at component line))) }
    {
        let before = &self.names[at..component.before];
        let inside = &self.names[component.before..component.inside];
        write_once(before, line, entries);
        let copies = write_copies(
            inside,
            component.times,
            line,
            component.tracks,
            &mut entries[before.len()..],
        );
        before.len() + copies
    }

    // Writes all entries that the records give.
    fn write_all(self, entries: &mut [u64])
        requires { length (written_entries self.names.now self.components.now self.repetitions) ≤ length entries.old }
        ensures { entries.new ≡ sets entries.old 0 (map entry_word (written_entries self.entry.names.now self.entry.components.now self.entry.repetitions)) }
    {
        let last = self.components.len().min(MOST_COMPONENTS);
        let mut count: usize = 0;
        let mut at: usize = 0;
        let mut line: u64 = 1;
        for k in 0..last {
            let c = self.component_names(at, k, line);
            count += self.write_component(at, c, line, &mut entries[count..]);
            at = c.inside;
            line = c.line;
        }
        let end = self.end_of_names(at, last as u64, false);
        write_once(&self.names[at..end], line, &mut entries[count..]);
    }

    // Writes the template's names into the first places of the table of entries, and answers how many there are. 8: more than 4,096 of them.
    #[tactic(auto, unfolding(crate::specs::Writing::names_written))]
    pub fn write_names(self, entries: &mut [u64; MOST_ENTRIES]) -> Result<u32, Fault>
        ensures { record { answer = answered_names result; entries = entries.new } ≡ names_written self.entry.names.now self.entry.components.now self.entry.repetitions entries.old }
    {
        let count = self.count_names();
        if MOST_ENTRIES < count as usize {
            return Err(Fault::Crowded);
        }
        self.write_all(entries);
        Ok(count)
    }
}
