// The fields of a line, each with the tab or the line feed after it.
ghost use Rattle.std.specs.Prelude.{◌≡◌, [], ◌∷◌, ◌≤◌, length, get_or};
ghost use Rattle.sizing.specs.Words.{bits_of};
ghost use Rattle.sizing.specs.Kinds.{number_of_kind};
ghost use Rattle.sheet_forms.specs.Words.{size_words, end_words};
ghost use Rattle.name_resolver.specs.Placements.{resolved_kind_of, resolved_number_of};
ghost use Rattle.text.specs.Decimal.{decimal};
ghost use Rattle.panel_text.specs.Numerals.{whole_number, hexadecimal};
ghost use Rattle.panel_text.specs.Lines.{axis_word, track_word, collapsed_word, size_word, source_letter};
ghost use Rattle.panel_text.specs.Written.{AddsField, AddsTwo};

use crate::line::PrintedLine;
use coordinates::Axis;
use name_resolver::NonNamedGridPlacement;
use sizing::{Kind, Sizing};
use text::TAB;
use track_rules::{GridTrackKind, TrackSource};

// The word of a kind of size.
fn kind_word(kind: Kind) -> &'static [u8]
    ensures word { result.now ≡ get_or size_words (number_of_kind kind) [] }
    ensures short { length result.now ≤ 8 }
{
    match kind {
        Kind::Length => b"len",
        Kind::Percent => b"pct",
        Kind::Fraction => b"fr",
        Kind::Auto => b"auto",
        Kind::MinContent => b"min",
        Kind::MaxContent => b"max",
        Kind::FitContentLength => b"fitl",
        Kind::FitContentPercent => b"fitp",
    }
}

// The letter of a record's source.
fn source_letter(source: TrackSource) -> u8
    ensures { result ≡ source_letter source }
{
    match source {
        TrackSource::Negative => b'n',
        TrackSource::Template => b't',
        TrackSource::Automatic => b'a',
        TrackSource::Area => b'g',
        TrackSource::Positive => b'p',
        TrackSource::Gutter => b'-',
    }
}

impl PrintedLine {
    // A number from 0 on.
    pub(crate) fn count(&mut self, number: u32, end: u8)
        ensures { AddsField self.old (decimal number) end self.new }
    {
        self.decimal(number);
        self.byte(end);
    }

    // The bits of a size.
    fn bits(&mut self, bits: u32, end: u8)
        ensures { AddsField self.old (hexadecimal bits) end self.new }
    {
        self.hexadecimal(bits);
        self.byte(end);
    }

    // The letter of an axis.
    pub(crate) fn axis(&mut self, axis: Axis)
        ensures { AddsField self.old (axis_word axis) 9 self.new }
    {
        let letter = match axis {
            Axis::Column => b"c",
            Axis::Row => b"r",
        };
        self.field(letter, TAB);
    }

    // The kind of a record.
    pub(crate) fn track(&mut self, kind: GridTrackKind)
        ensures { AddsField self.old (track_word kind) 9 self.new }
    {
        let word = match kind {
            GridTrackKind::Track => b"track".as_slice(),
            GridTrackKind::Gutter => b"gutter",
        };
        self.field(word, TAB);
    }

    // Whether a record is collapsed.
    pub(crate) fn collapsed(&mut self, collapsed: bool)
        ensures { AddsField self.old (collapsed_word collapsed) 9 self.new }
    {
        self.field(if collapsed { b"y" } else { b"n" }, TAB);
    }

    // A size: its kind and its value, each with the tab after it.
    pub(crate) fn size(&mut self, size: Sizing)
        ensures { AddsTwo self.old (size_word size) (hexadecimal (bits_of size)) self.new }
    {
        self.field(kind_word(size.kind()), TAB);
        self.bits(sizing::word::bits_of(size), TAB);
    }

    // The source of a record.
    pub(crate) fn source(&mut self, source: TrackSource, end: u8)
        ensures { AddsField self.old (source_letter source ∷ []) end self.new }
    {
        self.byte(source_letter(source));
        self.byte(end);
    }

    // The kind of an end of a placement.
    pub(crate) fn end_kind(&mut self, end: NonNamedGridPlacement)
        ensures { AddsField self.old (get_or end_words (resolved_kind_of end) []) 9 self.new }
    {
        let word = match end {
            NonNamedGridPlacement::Auto => b"auto",
            NonNamedGridPlacement::Line(_) => b"line",
            NonNamedGridPlacement::Span(_) => b"span",
        };
        self.field(word, TAB);
    }

    // A whole number.
    fn number(&mut self, number: i16, end: u8)
        ensures { AddsField self.old (whole_number number) end self.new }
    {
        self.whole_number(number);
        self.byte(end);
    }

    // The number of an end of a placement: its line or its span, 0 where it is auto.
    pub(crate) fn end_number(&mut self, end: NonNamedGridPlacement, last: u8)
        ensures { AddsField self.old (whole_number (resolved_number_of end)) last self.new }
    {
        match end {
            NonNamedGridPlacement::Auto => self.number(0, last),
            NonNamedGridPlacement::Line(line) => self.number(line.0, last),
            NonNamedGridPlacement::Span(span) => self.count(span as u32, last),
        }
    }
}
