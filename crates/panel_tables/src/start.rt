// What reading begins with.
ghost use Rattle.std.specs.Prelude.{◌≡◌};
ghost use Rattle.panel_tables.specs.Readings.{panel_reading};
ghost use Rattle.panel_tables.specs.Written.{zero_panel_reading};

use crate::stage::Stage;
use crate::{PictureReading, Reading};
use axis_tables::AxisReading;

impl Default for Reading {
    ghost is_default = { λ reading. panel_reading reading ≡ zero_panel_reading };

    // The start of reading: no record seen, no repeat open.
    fn default() -> Reading {
        Reading {
            stage: Stage::Axes,
            lines: 0,
            picture: PictureReading {
                rows: 0,
                width: None,
                broken: false,
            },
            columns: AxisReading::default(),
            rows: AxisReading::default(),
        }
    }
}
