// Entries in an axis by its number: 0 the columns, 1 the rows.
ghost use Rattle.std.specs.Prelude.{◌≡◌};
ghost use Rattle.coordinates.specs.Refusals.{number_of};
ghost use Rattle.library_numbers.specs.Answers.{no_axis_entry};

use coordinates::Fault;

// What an entry in no axis is refused by: its name first.
pub fn entry_in_no_axis(name: &[u8]) -> Fault
    ensures { number_of result ≡ no_axis_entry name.now }
{
    if name_entries::name::is_name(name) {
        return Fault::Count;
    }
    Fault::Name
}
