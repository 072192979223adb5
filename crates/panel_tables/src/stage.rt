// The order of a sheet's kinds.
ghost use Rattle.std.specs.Prelude.{◌≡◌};
ghost use Rattle.panel_tables.specs.Readings.{stage_number};

// How far a sheet has come: nothing but `axis` records, an `area`, a `row` of a picture, or any other record.
#[derive(Clone, Copy, Debug, PartialEq, Eq, PartialOrd, Ord)]
pub enum Stage {
    Axes = 0,
    Areas = 1,
    Rows = 2,
    Rest = 3,
}

impl From<Stage> for u32 {
    ghost from_gives = { λ stage number. number ≡ stage_number stage };

    // The number of a stage, in that order.
    fn from(stage: Stage) -> u32 {
        stage as u32
    }
}
