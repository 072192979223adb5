// What the text of an edit says.
ghost use Rattle.std.specs.Prelude.{◌≡◌, length};
ghost use Rattle.text.specs.Split.{split, same};
ghost use Rattle.text.specs.Whole.{whole_of, count_in};
ghost use Rattle.edit_rules.specs.Edits.{edit_in, edit_of};
ghost use Rattle.panel_edits.specs.Texts.{is_line_word, line_read, entry_said, entry_written, edit_said};

use coordinates::Axis;
use history_lines::one_line;
use name_entries::LAST_LINE;
use sheet_forms::field::axis;
use text::fields::STARTS;
use text::{NumberFault, TAB, cut_parts, part, read_count};

// How many fields an entry is written by.
const ENTRY_FIELDS: usize = 4;

// A direct entry of an axis, a line and a name; line 0 where the number that was written is outside 1 to 20,000.
#[derive(Clone, Copy, Debug, PartialEq, Eq)]
pub struct Entry<'a> {
    pub axis: Axis,
    pub line: u32,
    pub name: &'a [u8],
}

// An edit: its text is a line of a sheet, or writes an entry.
#[derive(Clone, Copy, Debug, PartialEq, Eq)]
pub enum Edit<'a> {
    Line,
    Enter(Entry<'a>),
}

// Whether a field is a word.
#[tactic(auto, using(text::proofs::Library::same_pointwise))]
fn is_word(f: &[u8], word: &[u8]) -> bool
    ensures { result ≡ same f.now word.now }
{
    f == word
}

// Whether a field is the word of a line that is an edit.
fn is_line_word(f: &[u8]) -> bool
    ensures { result ≡ is_line_word f.now }
{
    is_word(f, b"area") || is_word(f, b"track") || is_word(f, b"place")
}

// The line of an entry that a field writes.
fn entry_line(f: &[u8]) -> Option<u32>
    ensures { result ≡ line_read (count_in 1 20000 (whole_of f.now)) }
{
    match read_count(f, 1, LAST_LINE) {
        Ok(line) => Some(line),
        Err(NumberFault::Outside) => Some(0),
        Err(NumberFault::Unread) => None,
    }
}

// How many fields a text has.
fn fields(text: &[u8]) -> usize
    ensures { result ≡ length (split 9 text.now) }
{
    let mut starts = [0; STARTS];
    cut_parts(text, TAB, &mut starts)
}

// The entry that four fields write.
fn read_entry(text: &[u8]) -> Option<Entry<'_>>
    ensures { entry_said result ≡ entry_written (split 9 text.now) }
{
    if fields(text) != ENTRY_FIELDS {
        return None;
    }
    let axis = axis(part(text, TAB, 1)).ok()?;
    let line = entry_line(part(text, TAB, 2))?;
    let name = part(text, TAB, 3);
    Some(Entry { axis, line, name })
}

// The edit of a text that is one line.
#[tactic(auto, unfolding(edit_rules::specs::Edits::edit_in))]
fn read_fields(text: &[u8]) -> Option<Edit<'_>>
    ensures { edit_said text.now result ≡ edit_in (split 9 text.now) }
{
    let word = part(text, TAB, 0);
    if is_word(word, b"enter") {
        return Some(Edit::Enter(read_entry(text)?));
    }
    is_line_word(word).then_some(Edit::Line)
}

// The edit that a text is, if it is one: a line feed is in none.
#[tactic(auto, unfolding(edit_rules::specs::Edits::edit_of))]
pub fn read_edit(text: &[u8]) -> Option<Edit<'_>>
    ensures { edit_said text.now result ≡ edit_of text.now }
{
    if one_line(text) {
        read_fields(text)
    } else {
        None
    }
}
