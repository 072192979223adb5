// Layer 4, all line names of an axis in one run: one list for each explicit line.

#![tactic(auto)]

ghost use Rattle.std.specs.Prelude.{◌≡◌, length};
ghost use Rattle.coordinates.specs.Refusals.{refused_by};
ghost use Rattle.name_lists.specs.Lists.{answered_lists, lists, line_names_refusal, line_names_listed, Written};

mod ascending;
mod chained;
mod chains;
mod explicit;
mod line;
mod passes;

use ascending::are_ascending;
use coordinates::Fault;
use coordinates::limit::STORE_BYTES;
use coordinates::line::check_explicit;
use explicit::ExplicitNames;
use name_entries::{MOST_ENTRIES, Names};

// Up to so many entries times lines, passes over the entries take less time than chains.
const FEW: usize = 2048;

impl ExplicitNames<'_> {
    // Writes the lists of the explicit lines one after the other: the quickest way for these entries.
    fn write_lists(self, words: &mut [u64; MOST_ENTRIES]) -> usize
        ensures { Written words.old (lists self.entry.explicit self.entry.names.entries.now self.entry.names.store.now) words.new result }
    {
        if are_ascending(self.names.entries) {
            return self.write_ascending(words);
        }
        if self.names.entries.len() <= FEW / (self.explicit as usize + 1) {
            return self.write_by_passes(words);
        }
        self.write_by_chains(words)
    }
}

// Whether the lists can be given.
#[tactic(auto, unfolding(crate::specs::Lists::line_names_refusal))]
fn check_lists(explicit: u32, entries: usize, bytes: usize) -> Result<(), Fault>
    ensures { refused_by result ≡ line_names_refusal explicit entries bytes }
{
    check_explicit(explicit)?;
    if MOST_ENTRIES < entries {
        return Err(Fault::Crowded);
    }
    if bytes < STORE_BYTES {
        return Err(Fault::Short);
    }
    Ok(())
}

// Writes the lists of the explicit lines one after the other, a word for each name; answers how many there are. 4: more than 10,000
// tracks; 8: more than 4,096 entries; 10: a store below 32,768 bytes. Nothing is written then.
pub fn detailed_line_names(
    names: Names,
    explicit: u32,
    words: &mut [u64; MOST_ENTRIES],
) -> Result<u64, Fault>
    ensures { record { answer = answered_lists result; words = words.new } ≡ line_names_listed explicit names.entry.entries.now names.entry.store.now words.old }
{
    check_lists(explicit, names.entries.len(), names.store.len())?;
    Ok(ExplicitNames { names, explicit }.write_lists(words) as u64)
}
