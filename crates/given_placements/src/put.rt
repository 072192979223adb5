// The tables in which placements by argument stand, and no others.
ghost use Rattle.std.specs.Prelude.{◌≡◌, ◌≤◌, length, not};
ghost use Rattle.panel_tables.specs.Areas.{answered_panel};
ghost use Rattle.panel_tables.specs.Placements.{end_named};
ghost use Rattle.panel_tables.specs.Written.{zero_panel};
ghost use Rattle.given_placements.specs.Given.{end_given, names_after, names_missing, own_bytes, put_given, put_from, start_given, tables_of};

use crate::end::{check_given, used_end};
use crate::{GivenFault, GivenPlacement};
use coordinates::{Axis, Fault, part_of};
use panel_tables::{Panel, PlacementEnd};
use panel_writes::place_record::{NamedEnd, put_placement};

// How many bytes of the names are a placement's own.
fn own_bytes(one: GivenPlacement) -> usize
    ensures { result ≡ own_bytes one }
{
    one.startname as usize + one.endname as usize
}

// Whether the names have as many bytes as the placements say.
pub(crate) fn has_names(given: &[GivenPlacement], names: &[u8]) -> bool
    ensures { result ≡ not (names_missing (length names.now) given.now) }
{
    let mut left = names.len();
    for one in given {
        let own = own_bytes(*one);
        if left < own {
            return false;
        }
        left -= own;
    }
    true
}

// The names after those of a placement.
fn names_after(one: GivenPlacement, names: &[u8]) -> &[u8]
    ensures { result.now ≡ names_after one names.now }
{
    names.get(own_bytes(one)..).unwrap_or(&[])
}

// The start of a placement, with its bytes of the names.
fn start_given(one: GivenPlacement, names: &[u8]) -> NamedEnd<'_>
    ensures { end_named result.end result.name.now ≡ start_given one names.now }
{
    NamedEnd {
        end: PlacementEnd {
            kind: one.startkind,
            number: one.startnumber,
        },
        name: part_of(names, 0, one.startname as usize),
    }
}

// Its end, with the bytes after those.
fn end_given(one: GivenPlacement, names: &[u8]) -> NamedEnd<'_>
    ensures { end_named result.end result.name.now ≡ end_given one names.now }
{
    NamedEnd {
        end: PlacementEnd {
            kind: one.endkind,
            number: one.endnumber,
        },
        name: part_of(names, one.startname as usize, one.endname as usize),
    }
}

// One placement more in the tables, whose names are the first of those left.
#[tactic(auto, unfolding(crate::specs::Given::put_given))]
fn put_given(
    panel: Panel,
    words: &mut [u64],
    bytes: &mut [u8],
    one: GivenPlacement,
    names: &[u8],
) -> Result<Panel, Fault>
    ensures { record { answer = answered_panel panel result; words = words.new; bytes = bytes.new } ≡ put_given panel words.old bytes.old one names.now }
{
    let start = start_given(one, names);
    let end = end_given(one, names);
    check_given(one.axis, start, end)?;
    let axis = Axis::from(one.axis);
    put_placement(panel, words, bytes, axis, used_end(start), used_end(end))
}

// All of them in tables of zeros, or the first that is refused.
pub(crate) fn put_all(
    given: &[GivenPlacement],
    names: &[u8],
    words: &mut [u64],
    bytes: &mut [u8],
) -> Result<u32, GivenFault>
    requires { length given.now ≤ 256 }
    ensures { tables_of result words.new bytes.new ≡ put_from zero_panel words.old bytes.old names.now 0 given.now }
{
    let mut panel = Panel::default();
    let mut rest = names;
    for (index, one) in given.iter().enumerate() {
        match put_given(panel, words, bytes, *one, rest) {
            Ok(after) => panel = after,
            Err(fault) => {
                return Err(GivenFault {
                    fault,
                    index: index as u32,
                });
            }
        }
        rest = names_after(*one, rest);
    }
    Ok(panel.grid.placements)
}
