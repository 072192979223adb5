// Where the names of a sheet stand, as words of a lent table.
ghost use Rattle.std.specs.Prelude.{◌≡◌};
ghost use Rattle.name_entries.specs.Places.{name_word, name_place};

use crate::NamePlace;

impl From<NamePlace> for u64 {
    ghost from_gives = { λ name word. word ≡ name_word name.component name.place name.offset name.length };

    // The word of a name.
    #[tactic(auto, unfolding(crate::specs::Places::name_word))]
    fn from(name: NamePlace) -> u64 {
        let component = u64::from(name.component) % 0x100;
        let place = u64::from(name.place) % 0x100;
        let offset = u64::from(name.offset) % 0x1_0000;
        let length = u64::from(name.length) % 0x100;
        component + place * 0x100 + offset * 0x1_0000 + length * 0x1_0000_0000
    }
}

impl From<u64> for NamePlace {
    ghost from_gives = { λ word name. name ≡ name_place word };

    // A name's word taken apart. Any word gives a place.
    #[tactic(auto, unfolding(crate::specs::Places::name_place))]
    fn from(word: u64) -> NamePlace {
        NamePlace {
            component: (word % 0x100) as u32,
            place: (word / 0x100 % 0x100) as u32,
            offset: (word / 0x1_0000 % 0x1_0000) as u32,
            length: (word / 0x1_0000_0000 % 0x100) as u32,
        }
    }
}
