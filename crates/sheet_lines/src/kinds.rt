// The kinds of lines, by their first fields.
ghost use Rattle.std.specs.Prelude.{◌≡◌};
ghost use Rattle.text.specs.Split.{index};
ghost use Rattle.sheet_forms.specs.Words.{kind_words};
ghost use Rattle.sheet_lines.specs.Fields.{line_kind_number};

// The kind of a line.
#[derive(Clone, Copy, Debug, PartialEq, Eq)]
pub enum LineKind {
    Axis,
    Area,
    Name,
    Track,
    Repeat,
    End,
    Spare,
    Extra,
    Item,
    Place,
    Row,
    Cell,
}

// Which kind of line a first field names, if any, the commonest asked first.
#[tactic(auto, unfolding(text::specs::Split::index, text::specs::Split::same))]
pub fn kind(f: &[u8]) -> Option<LineKind>
    ensures { line_kind_number result ≡ index f.now kind_words }
{
    match f {
        b"name" => Some(LineKind::Name),
        b"place" => Some(LineKind::Place),
        b"track" => Some(LineKind::Track),
        b"item" => Some(LineKind::Item),
        b"cell" => Some(LineKind::Cell),
        b"area" => Some(LineKind::Area),
        b"extra" => Some(LineKind::Extra),
        b"repeat" => Some(LineKind::Repeat),
        b"end" => Some(LineKind::End),
        b"spare" => Some(LineKind::Spare),
        b"axis" => Some(LineKind::Axis),
        b"row" => Some(LineKind::Row),
        _ => None,
    }
}
