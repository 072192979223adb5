// Name records as words of a lent table.
ghost use Rattle.std.specs.Prelude.{◌≡◌};
ghost use Rattle.name_template.specs.Records.{stands};

use name_entries::NamePlace;

// Whether a record stands before a component, or inside it.
#[tactic(auto, unfolding(crate::specs::Records::stands))]
pub fn stands_there(word: u64, component: u64, inside: bool) -> bool
    ensures { result ≡ stands inside component word }
{
    let record = NamePlace::from(word);
    if u64::from(record.component) != component {
        return false;
    }
    (0 < record.place) == inside
}
