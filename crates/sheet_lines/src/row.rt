// A row of a picture, of as many words as it has.
ghost use Rattle.std.specs.Prelude.{◌≡◌};
ghost use Rattle.text.specs.Split.{split};
ghost use Rattle.sheet_forms.specs.Answers.{said_of};
ghost use Rattle.sheet_forms.specs.Records.{row_line};

use coordinates::Fault;
use picture_words::{check_row, words_in};
use sheet_forms::Record;

// `row`, then one or more words
pub(crate) fn row_line(line: &[u8]) -> Result<Record, Fault>
    ensures { said_of result ≡ row_line (split 9 line.now) }
{
    let words = words_in(line);
    if words == 0 {
        return Err(Fault::Unread);
    }
    check_row(line)?;
    Ok(Record::PictureRow(words as u32))
}
