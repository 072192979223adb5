// The group of a key: the entries that can have a name of that key, and whether they are listed.
ghost use Rattle.std.specs.Prelude.{◌≡◌, ◌≤◌};
ghost use Rattle.name_groups.specs.Groups.{group_at, group_part, key_group, told_by};
ghost use Rattle.name_groups.specs.Keys.{joined_key};

use crate::key::{Grouping, joined_key};
use name_lines::JoinedName;

// The entries of a group, and whether they list the lines of one name.
#[derive(Clone, Copy)]
pub struct Group<'a> {
    pub entries: &'a [u64],
    pub listed: bool,
}

// Where the entries of a group lie in the index, and whether they list the lines of one name.
#[derive(Clone, Copy, Debug, PartialEq, Eq)]
pub struct GroupPlace {
    pub first: usize,
    pub end: usize,
    pub listed: bool,
}

// What the word of a key tells: where its group begins and ends among the entries, and how many of these do not list.
#[derive(Clone, Copy, Debug, PartialEq, Eq)]
pub struct GroupWord {
    pub first: usize,
    pub end: usize,
    pub unlisted: u64,
}

impl From<u64> for GroupWord {
    ghost from_gives = { λ word told. told ≡ told_by word };

    // What a word tells. Any word does.
    fn from(word: u64) -> GroupWord {
        GroupWord {
            first: (word % 0x1_0000) as usize,
            end: (word / 0x1_0000 % 0x1_0000) as usize,
            unlisted: word / 0x1_0000_0000,
        }
    }
}

// Where the group of a key lies, by its word.
fn place_at(index: &[u64], keys: usize, key: usize) -> GroupPlace
    requires { keys ≤ 1024 }
    ensures { result ≡ key_group keys index.now key }
{
    let Some(word) = index.get(key) else {
        return GroupPlace {
            first: 0,
            end: 0,
            listed: false,
        };
    };
    let told = GroupWord::from(*word);
    GroupPlace {
        first: keys + told.first,
        end: keys + told.end,
        listed: told.unlisted == 0,
    }
}

// Where the group lies in which the entries of a name in two parts are kept: all entries where they are kept together.
#[tactic(auto, unfolding(crate::specs::Groups::group_at))]
pub fn group_place(index: &[u64], grouping: Grouping, name: JoinedName) -> GroupPlace
    ensures { result ≡ group_at grouping index.now (joined_key grouping name.entry.stem.now name.entry.edge) }
{
    match grouping {
        Grouping::Whole => GroupPlace {
            first: 0,
            end: index.len(),
            listed: false,
        },
        Grouping::Few | Grouping::Many => {
            place_at(index, grouping.key_count(), joined_key(grouping, name))
        }
    }
}

// The entries of a group: none where the index doesn't hold them.
#[tactic(auto, unfolding(crate::specs::Groups::group_part))]
pub fn group_part(index: &[u64], place: GroupPlace) -> &[u64]
    ensures { result.now ≡ group_part index.now place }
{
    index.get(place.first..place.end).unwrap_or(&[])
}

// The group in which the entries of a name in two parts are kept.
pub fn group_of<'a>(index: &'a [u64], grouping: Grouping, name: JoinedName) -> Group<'a>
    ensures entries { result.entries.now ≡ group_part index.now (group_at grouping index.now (joined_key grouping name.entry.stem.now name.entry.edge)) }
    ensures listed { result.listed ≡ (group_at grouping index.now (joined_key grouping name.entry.stem.now name.entry.edge)).listed }
{
    let place = group_place(index, grouping, name);
    Group {
        entries: group_part(index, place),
        listed: place.listed,
    }
}
