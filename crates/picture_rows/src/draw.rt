// The runs of a row, one after the other.
ghost use Rattle.std.specs.Prelude.{◌≡◌, ◌+◌, ◌≤◌, length, Ok};
ghost use Rattle.picture_rules.specs.Steps.{runs_of, run_box};
ghost use Rattle.picture_words.specs.Words.{words_of};
ghost use Rattle.picture_areas.specs.Runs.{answered_drawn, edges_of_box};
ghost use Rattle.picture_rows.specs.Steps.{settled, started, run_in, runs_in};

use coordinates::Fault;
use panel_tables::{AreaEdges, Panel};
use picture_areas::{PictureAfter, draw_run};
use picture_words::{first_word, is_dots, run_at, word_at};

// The edges of a run of so many words, from a column on.
fn run_edges(row: u16, column: u32, count: usize) -> AreaEdges
    requires { column + count ≤ 10001 }
    ensures { result ≡ edges_of_box (run_box row column count) }
{
    AreaEdges {
        rowstart: u32::from(row),
        rowend: u32::from(row) + 1,
        columnstart: column,
        columnend: column + count as u32,
    }
}

// One run, after those before it: dots draw nothing, a name is drawn. Nothing mends a broken picture.
#[tactic(auto, using(crate::proofs::Settled::dots_step))]
fn run_step(
    before: PictureAfter,
    words: &mut [u64],
    bytes: &mut [u8],
    word: &[u8],
    edges: AreaEdges,
) -> Result<PictureAfter, Fault>
    ensures { record { answer = answered_drawn before.panel result; words = words.new; bytes = bytes.new } ≡ settled before.panel (run_in word.now edges (record { answer = answered_drawn before.panel (Ok before); words = words.old; bytes = bytes.old })) }
{
    if is_dots(word) {
        return Ok(before);
    }
    let drawn = draw_run(before.panel, words, bytes, word, edges)?;
    Ok(PictureAfter {
        broken: before.broken | drawn.broken,
        panel: drawn.panel,
    })
}

// All runs of a row, until one is refused.
pub(crate) fn draw_runs(
    panel: Panel,
    words: &mut [u64],
    bytes: &mut [u8],
    line: &[u8],
    row: u16,
) -> Result<PictureAfter, Fault>
    requires { length (words_of line.now) ≤ 10000 }
    ensures { record { answer = answered_drawn panel result; words = words.new; bytes = bytes.new } ≡ settled panel (runs_in row 1 (runs_of (words_of line.now)) (started panel words.old bytes.old)) }
{
    let mut drawn = PictureAfter {
        broken: false,
        panel,
    };
    let mut at = first_word(line);
    let mut column = 1;
    while at <= line.len() {
        let run = run_at(line, at);
        let word = word_at(line, at);
        let edges = run_edges(row, column, run.count);
        drawn = run_step(drawn, words, bytes, word, edges)?;
        at = run.next;
        column = edges.columnend;
    }
    Ok(drawn)
}
