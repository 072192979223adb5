// The refusals of document 01's table, and those that document 02 adds, by number.
ghost use Rattle.std.specs.Prelude.{◌≡◌};
ghost use Rattle.coordinates.specs.Refusals.{number_of, Decodes};
ghost use Rattle.coordinates.specs.Answers.{count_check};

// A fault of the table: why a call is refused.
#[derive(Clone, Copy, Debug, PartialEq, Eq)]
pub enum Fault {
    // a sheet too long, or a line of no form
    Unread = 1,
    // outside the name range
    Name = 2,
    // a size outside its range, or an axis that has no least resize to ask for
    Value = 3,
    // a whole number outside its range
    Count = 4,
    // an area start not below its end
    Area = 5,
    // an area name or axis record again
    Twice = 6,
    // a record earlier in kind than one before it
    Late = 7,
    // one more would pass a panel limit
    Crowded = 8,
    // conversion of line 0
    ZeroLine = 9,
    // a lent run or store that is too short
    Short = 10,
    // a track or gutter with no definite size (document 02, Req 01)
    Indefinite = 11,
    // an area that shares a cell with an earlier one
    Overlap = 12,
    // a row of a picture with another width than its first (document 02, Req 07)
    Unequal = 13,
    // a name of a picture whose cells are no rectangle
    Broken = 14,
    // a cell for which no place is free, or whose lines leave the columns or the rows (document 02, Req 10)
    Unplaced = 15,
    // an edit whose line does not fit in the bytes that are free of a history (document 02, Req 14)
    HistoryFull = 16,
    // a step above the last of a history
    NoStep = 17,
}

// A number that no fault has.
#[derive(Clone, Copy, Debug, PartialEq, Eq)]
pub struct UnknownFault(pub u32);

// Refused by 4: a number outside its range.
pub fn check_count(outside: bool) -> Result<(), Fault>
    ensures { result ≡ count_check outside }
{
    if outside {
        return Err(Fault::Count);
    }
    Ok(())
}

impl From<Fault> for u32 {
    ghost from_gives = { λ fault number. number ≡ number_of fault };

    // The number of a fault in the table.
    fn from(fault: Fault) -> u32 {
        fault as u32
    }
}

impl TryFrom<u32> for Fault {
    type Error = UnknownFault;

    ghost try_from_gives = { Decodes };

    // The fault of a number of the table.
    fn try_from(number: u32) -> Result<Fault, UnknownFault> {
        match number {
            1 => Ok(Fault::Unread),
            2 => Ok(Fault::Name),
            3 => Ok(Fault::Value),
            4 => Ok(Fault::Count),
            5 => Ok(Fault::Area),
            6 => Ok(Fault::Twice),
            7 => Ok(Fault::Late),
            8 => Ok(Fault::Crowded),
            9 => Ok(Fault::ZeroLine),
            10 => Ok(Fault::Short),
            11 => Ok(Fault::Indefinite),
            12 => Ok(Fault::Overlap),
            13 => Ok(Fault::Unequal),
            14 => Ok(Fault::Broken),
            15 => Ok(Fault::Unplaced),
            16 => Ok(Fault::HistoryFull),
            17 => Ok(Fault::NoStep),
            _ => Err(UnknownFault(number)),
        }
    }
}
