// The least resize of an axis, beside the expected text: `resize`, then a size, or `-` where none differs.
use crate::expected::Expected;
use crate::tables::Shown;
use coordinates::Axis;
use panel_resize::least_resize;

// The least resize.
pub fn seen_resize<'a>(expected: Expected<'a>, axis: Axis, shown: Shown) -> Expected<'a> {
    match least_resize(shown.grid, shown.lent.words, axis) {
        Ok(Some(size)) => expected.part(b"resize\t").number(size).part(b"\n"),
        Ok(None) => expected.part(b"resize\t-\n"),
        Err(fault) => expected.refused(fault, 0),
    }
}
