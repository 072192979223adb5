// The side of a cell in one axis.
ghost use Rattle.std.specs.Prelude.{◌≡◌, nat_abs};
ghost use Rattle.name_rules.specs.Css.{at_line};
ghost use Rattle.placement_hits.specs.Steps.{end_of, ends_by};
ghost use Rattle.coordinates.specs.declared.line.GenericGridPlacement.TheVariants.{Span};
ghost use Rattle.cell_sides.specs.Types.{fixed};
ghost use Rattle.cell_sides.specs.Css.{CssSide};
ghost use Rattle.cell_sides.specs.Steps.{line_up_to, line_back, end_in, tracks_of, side_ahead, side_back, ordered_side, line_side, from_span, from_auto, side_in, side_by};

use crate::{CellEnd, Side};
use coordinates::LinePair;
use placement_hits::occupied::ordered;
use placement_hits::{Ends, SettledEnd};

// The lines of an axis: its explicit tracks, and the last line that a cell may reach.
#[derive(Clone, Copy, Debug, PartialEq, Eq)]
pub struct CellLines {
    pub explicit: u16,
    pub last: u16,
}

// A span of 0, which no sheet has, is read as 1; its sign is dropped.
fn span_end(span: i32) -> CellEnd
    ensures { result ≡ Span (tracks_of (nat_abs span)) }
{
    CellEnd::Span(span.unsigned_abs().max(1))
}

// Between two lines.
fn fixed(start: u32, end: u32) -> Side
    ensures { result ≡ fixed start end }
{
    Side::Fixed(LinePair { start, end })
}

// So many tracks back from a line.
fn side_back(tracks: u32, end: u32) -> Option<Side>
    ensures { result ≡ side_back tracks end }
{
    let start = end.checked_sub(tracks)?;
    (start != 0).then_some(fixed(start, end))
}

// Where the start is a span: of two spans the end's is dropped.
fn from_span(start: u32, end: CellEnd) -> Option<Side>
    ensures { result ≡ from_span start end }
{
    match end {
        CellEnd::Auto | CellEnd::Span(_) => Some(Side::Free(start)),
        CellEnd::Line(line) => side_back(start, line),
    }
}

// Where the start is auto.
fn from_auto(end: CellEnd) -> Option<Side>
    ensures { result ≡ from_auto end }
{
    match end {
        CellEnd::Auto => Some(Side::Free(1)),
        CellEnd::Line(line) => side_back(1, line),
        CellEnd::Span(tracks) => Some(Side::Free(tracks)),
    }
}

impl CellLines {
    // A line by its number; none where it is not among the lines.
    fn line_up_to(self, number: u32) -> Option<CellEnd>
        ensures { result ≡ line_up_to self.last number }
    {
        (number <= u32::from(self.last)).then_some(CellEnd::Line(number))
    }

    // The line so many before the last explicit one; none where it is not among the lines.
    fn line_back(self, back: u32) -> Option<CellEnd>
        ensures { result ≡ line_back self.explicit self.last back }
    {
        let before = u32::from(self.explicit).checked_sub(back)?;
        self.line_up_to(before + 1)
    }

    // A grid line, which is not held again; line 0 counts as auto.
    fn line_end(self, line: i32) -> Option<CellEnd>
        ensures { result ≡ end_in self.explicit self.last (at_line line) }
    {
        match line {
            0 => Some(CellEnd::Auto),
            1.. => self.line_up_to(line.unsigned_abs()),
            _ => self.line_back(line.unsigned_abs() - 1),
        }
    }

    // A settled end; none where its line is not among the lines.
    fn end(self, end: SettledEnd) -> Option<CellEnd>
        ensures { result ≡ end_in self.explicit self.last (end_of end) }
    {
        match end {
            SettledEnd::Auto => Some(CellEnd::Auto),
            SettledEnd::Line(line) => self.line_end(line),
            SettledEnd::Span(span) => Some(span_end(span)),
        }
    }

    // So many tracks from a line on.
    fn side_ahead(self, start: u32, tracks: u32) -> Option<Side>
        ensures { result ≡ side_ahead self.last start tracks }
    {
        if u32::from(self.last).checked_sub(start)? < tracks {
            return None;
        }
        Some(fixed(start, start + tracks))
    }

    // Between two lines: reversed ones are swapped, of two equal ones the end is dropped.
    #[tactic(auto, unfolding(placement_hits::specs::Steps::ordered_places))]
    fn ordered_side(self, start: u32, end: u32) -> Option<Side>
        ensures { result ≡ ordered_side self.last start end }
    {
        let lines = ordered(u32::from(self.last), start, end)?;
        Some(Side::Fixed(lines))
    }

    // Where the start is a line.
    fn line_side(self, start: u32, end: CellEnd) -> Option<Side>
        ensures { result ≡ line_side self.last start end }
    {
        match end {
            CellEnd::Auto => self.side_ahead(start, 1),
            CellEnd::Line(line) => self.ordered_side(start, line),
            CellEnd::Span(tracks) => self.side_ahead(start, tracks),
        }
    }

    // Where both ends lie on the axis.
    fn side_in(self, start: CellEnd, end: CellEnd) -> Option<Side>
        ensures { result ≡ side_in self.last start end }
    {
        match start {
            CellEnd::Auto => from_auto(end),
            CellEnd::Line(line) => self.line_side(line, end),
            CellEnd::Span(tracks) => from_span(tracks, end),
        }
    }

    // The side between two ends; none where the line of one is not among the lines.
    fn side_by(self, start: Option<CellEnd>, end: Option<CellEnd>) -> Option<Side>
        ensures { result ≡ side_by self.last start end }
    {
        self.side_in(start?, end?)
    }

    // The side of a cell from its settled ends; none where an edge leaves the lines.
    #[tactic(auto, using(crate::proofs::Sides::side_css))]
    pub fn side(self, ends: Ends) -> Option<Side>
        ensures { CssSide self.explicit self.last (ends_by ends) result }
    {
        self.side_by(self.end(ends.start), self.end(ends.end))
    }
}
