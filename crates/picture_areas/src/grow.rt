// An area that goes on into the row of a run.
ghost use Rattle.std.specs.Prelude.{◌≡◌, not};
ghost use Rattle.picture_areas.specs.Runs.{run_continues, grow_in};

use coordinates::set_at;
use panel_tables::AreaEdges;
use panel_tables::area::area_at;

// Whether an area ends at the row of a run and has exactly its columns.
#[tactic(auto, unfolding(crate::specs::Runs::run_continues))]
fn run_continues(held: AreaEdges, run: AreaEdges) -> bool
    ensures { result ≡ run_continues held run }
{
    held.rowend == run.rowstart
        && held.columnstart == run.columnstart
        && held.columnend == run.columnend
}

// The edges of area `index` with the row of a run, where it continues the area; whether it does. Else it breaks the picture.
#[tactic(auto, using(crate::proofs::Runs::grown_not))]
pub(crate) fn grow_area(words: &mut [u64], index: u32, run: AreaEdges) -> bool
    ensures { record { broken = not result; words = words.new } ≡ grow_in words.old index run }
{
    let held = area_at(words, index).edges;
    let continues = run_continues(held, run);
    if continues {
        let longer = AreaEdges {
            rowend: run.rowend,
            ..held
        };
        set_at(words, index as usize, u64::from(longer));
    }
    continues
}
