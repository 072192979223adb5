// The fields of a line, which is cut once.
ghost use Rattle.std.specs.Prelude.{◌≡◌, ◌<◌, true, false, eqb, length, MatchResult};
ghost use Rattle.coordinates.specs.declared.refusal.Fault.TheVariants.{Unread};
ghost use Rattle.sheet_forms.specs.Words.{at};
ghost use Rattle.sheet_lines.specs.Fields.{fields_of, CutAs};

use coordinates::Fault;
use text::fields::STARTS;
use text::{TAB, cut_parts};

// How many fields a line has, its kind with them; a row has one for each of its words.
pub const AXIS_FIELDS: usize = 6;

pub const AREA_FIELDS: usize = 6;

pub const NAME_FIELDS: usize = 3;

pub const SIZES_FIELDS: usize = 6;

pub const REPEAT_FIELDS: usize = 3;

pub const END_FIELDS: usize = 2;

pub const EXTRA_FIELDS: usize = 4;

pub const ITEM_FIELDS: usize = 3;

pub const PLACE_FIELDS: usize = 8;

pub const CELL_FIELDS: usize = 13;

// A line with the starts of its fields, and their number.
#[derive(Clone, Copy)]
pub struct Fields<'a> {
    pub line: &'a [u8],
    pub starts: [usize; STARTS],
    pub count: usize,
}

impl<'a> Fields<'a> {
    // A line, cut at its tabs.
    pub fn cut(line: &'a [u8]) -> Fields<'a>
        ensures { CutAs line.now result }
    {
        let mut starts = [0; STARTS];
        let count = cut_parts(line, TAB, &mut starts);
        Fields {
            line,
            starts,
            count,
        }
    }

    // Field k.
    #[tactic(auto, using(crate::proofs::Cuts::field_at))]
    pub(crate) fn field(&self, k: usize) -> &'a [u8]
        requires { k < length (fields_of self.now) }
        ensures { result.now ≡ at (fields_of self.now) k }
    {
        text::field(self.line, &self.starts, k)
    }

    // A line of another number of fields is unread.
    #[tactic(auto, using(text::proofs::Places::length_fields))]
    pub fn check_count(&self, count: usize) -> Result<(), Fault>
        ensures { MatchResult result (λ u. eqb (length (fields_of self.now)) count ≡ true) (λ fault. (eqb (length (fields_of self.now)) count ≡ false) × (fault ≡ Unread)) }
    {
        if self.count == count {
            Ok(())
        } else {
            Err(Fault::Unread)
        }
    }
}
