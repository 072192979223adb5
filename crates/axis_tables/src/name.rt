// What `name` does to an axis.
ghost use Rattle.std.specs.Prelude.{◌≡◌, ◌%◌, cond, ltb};
ghost use Rattle.coordinates.specs.Refusals.{number_of};
ghost use Rattle.axis_tables.specs.Store.{InNames, place_in, answered_axis, put_name};
ghost use Rattle.axis_tables.specs.Readings.{axis_reading};
ghost use Rattle.axis_tables.specs.View.{no_room, named_fault};
ghost use Rattle.axis_tables.specs.Runs.{put_bytes};

use crate::layout::{AXIS_BYTES, MOST_NAMES, NAMES};
use crate::write::{copy_what_fits, copy_within};
use crate::{AxisAfter, AxisReading};
use coordinates::limit::LONGEST_NAME;
use coordinates::{Fault, set_at};
use name_entries::NamePlace;

// The bytes of a name from `at` on, where the store has room for them, and else nothing.
#[tactic(auto, unfolding(crate::specs::Runs::put_bytes))]
pub fn put_bytes(store: &mut [u8], at: usize, name: &[u8])
    ensures { store.new ≡ put_bytes store.old at name.now }
{
    if at <= store.len() && name.len() <= store.len() - at {
        copy_within(store, at, name);
    }
}

// Whether a name of that length has no room in a table of `most` names and a store of `room` bytes.
pub fn no_room(most: u32, room: u32, names: u32, used: u32, length: usize) -> bool
    ensures { result ≡ no_room most room names used length }
{
    LONGEST_NAME < length || most <= names || (room as usize) < used as usize + length
}

// The fault to tell where a name of that length stands beside another fault: `name` for more than 32 bytes, else the other. Callers choose
// the type that tells a fault.
pub fn beside_name<F: Copy>(length: usize, name: F, other: F) -> F
    ensures { result ≡ cond (ltb 32 length) name other }
{
    if LONGEST_NAME < length { name } else { other }
}

// A fault beside a name of that length: a name of more than 32 bytes is the fault with the lower number.
pub fn named_fault(length: usize, fault: Fault) -> Fault
    ensures { number_of result ≡ named_fault length (number_of fault) }
{
    beside_name(length, Fault::Name, fault)
}

// Where a name stands, as a byte: 0 outside a repeat, one more than the tracks before it in the open repeat.
fn place_in(reading: AxisReading) -> u32
    ensures { result ≡ place_in (axis_reading reading) % 256 }
{
    match reading.unended {
        None => 0,
        Some(repeat) => ((repeat.length % 0x100 + 1) % 0x100) as u32,
    }
}

// A name: its word is the next, and its bytes follow those of the names before it. 2: more than 32 bytes; 8: it has no room.
#[tactic(auto, unfolding(crate::specs::Store::put_name), using(crate::proofs::Sets::name_word_byte))]
pub fn put_name(
    axis: AxisAfter,
    words: &mut [u64],
    bytes: &mut [u8],
    name: &[u8],
) -> Result<AxisAfter, Fault>
    ensures { record { answer = answered_axis axis.state (axis_reading axis.reading) result; words = words.new; bytes = bytes.new } ≡ put_name axis.state (axis_reading axis.reading) words.old bytes.old name.now }
{
    let length = name.len();
    let names = axis.state.room.names;
    let used = axis.state.room.used;
    if no_room(MOST_NAMES as u32, AXIS_BYTES as u32, names, used, length) {
        return Err(named_fault(length, Fault::Crowded));
    }
    let word = u64::from(NamePlace {
        component: axis.state.room.template.components,
        place: place_in(axis.reading),
        offset: used,
        length: length as u32,
    });
    set_at(words, NAMES + names as usize, word);
    copy_what_fits(bytes, used as usize, name);
    let mut after = axis;
    after.state.room.names = names + 1;
    after.state.room.used = used + length as u32;
    Ok(after)
}
