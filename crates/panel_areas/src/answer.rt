// The edges of an area as numbers, for programs in C.
ghost use Rattle.std.specs.Prelude.{◌≡◌};
ghost use Rattle.panel_areas.specs.Areas.{answered_area};

use crate::{AreaAnswer, AreaLines};
use coordinates::Fault;

impl From<Result<AreaLines, Fault>> for AreaAnswer {
    ghost from_gives = { λ found answer. answer ≡ answered_area found };

    // The lines, 0 for one that there is not, or the number of the fault and zeros.
    fn from(found: Result<AreaLines, Fault>) -> AreaAnswer {
        match found {
            Ok(lines) => AreaAnswer {
                number: 0,
                start: lines.start.unwrap_or(0),
                end: lines.end.unwrap_or(0),
            },
            Err(fault) => AreaAnswer {
                number: u32::from(fault),
                ..AreaAnswer::default()
            },
        }
    }
}
