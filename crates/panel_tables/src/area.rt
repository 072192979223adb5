// The drawn areas: a word of edges for each, then a word of its name; the bytes of the names one after the other.
ghost use Rattle.std.specs.Prelude.{◌≡◌};
ghost use Rattle.panel_tables.specs.Areas.{edges_word, edges_of, area_at, area_name, has_area_in};
ghost use Rattle.panel_tables.specs.Places.{area_place_in};

use crate::region::word_under;
use crate::{AreaEdges, AreaPlace};
use axis_tables::layout::part_from;
use coordinates::limit::LONGEST_NAME;
use name_entries::NamePlace;

// The most drawn areas.
pub const MOST_AREAS: u32 = 64;

pub const AREA_NAMES: usize = MOST_AREAS as usize;

pub const AREA_WORDS: usize = 2 * AREA_NAMES;

pub const AREA_BYTES: usize = AREA_NAMES * LONGEST_NAME;

impl From<AreaEdges> for u64 {
    ghost from_gives = { λ edges word. word ≡ edges_word edges };

    // The word of edges.
    #[tactic(auto, unfolding(crate::specs::Areas::edges_word))]
    fn from(edges: AreaEdges) -> u64 {
        let rowstart = u64::from(edges.rowstart) % 0x1_0000;
        let rowend = u64::from(edges.rowend) % 0x1_0000;
        let columnstart = u64::from(edges.columnstart) % 0x1_0000;
        let columnend = u64::from(edges.columnend) % 0x1_0000;
        rowstart + rowend * 0x1_0000 + columnstart * 0x1_0000_0000 + columnend * 0x1_0000_0000_0000
    }
}

impl From<u64> for AreaEdges {
    ghost from_gives = { λ word edges. edges ≡ edges_of word };

    // Edges from their word. Any word gives some.
    #[tactic(auto, unfolding(crate::specs::Areas::edges_of))]
    fn from(word: u64) -> AreaEdges {
        AreaEdges {
            rowstart: (word % 0x1_0000) as u32,
            rowend: (word / 0x1_0000 % 0x1_0000) as u32,
            columnstart: (word / 0x1_0000_0000 % 0x1_0000) as u32,
            columnend: (word / 0x1_0000_0000_0000) as u32,
        }
    }
}

// Area i of the table. Any words give one.
#[tactic(auto, unfolding(crate::specs::Areas::area_at))]
pub fn area_at(words: &[u64], index: u32) -> AreaPlace
    ensures { result ≡ area_at words.now index }
{
    let at = index as usize;
    let edges = AreaEdges::from(word_under(words, index, MOST_AREAS, at));
    let name = NamePlace::from(word_under(words, index, MOST_AREAS, AREA_NAMES + at));
    AreaPlace {
        edges,
        offset: name.offset,
        length: name.length,
    }
}

// The name of area i: a part of the bytes.
pub fn area_name<'a>(words: &[u64], bytes: &'a [u8], index: u32) -> &'a [u8]
    ensures { result.now ≡ area_name words.now bytes.now index }
{
    let place = area_at(words, index);
    part_from(bytes, place.offset as usize, place.length)
}

// The first of so many areas that has that name, of those that the table has places for.
pub fn area_index(areas: u32, words: &[u64], bytes: &[u8], name: &[u8]) -> Option<u32>
    ensures { result ≡ area_place_in areas words.now bytes.now name.now }
{
    (0..areas.min(MOST_AREAS)).find(|index| area_name(words, bytes, *index) == name)
}

// Whether one of so many areas has that name.
#[tactic(auto, using(crate::proofs::Places::has_place))]
pub fn has_area(areas: u32, words: &[u64], bytes: &[u8], name: &[u8]) -> bool
    ensures { result ≡ has_area_in areas words.now bytes.now name.now }
{
    area_index(areas, words, bytes, name).is_some()
}
