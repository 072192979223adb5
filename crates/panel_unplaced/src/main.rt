// The panel program on a panel with a cell for which no place is left.

#![tactic(auto)]

use std::io;

fn main(rt: HostRuntime) -> io::Result<()> {
    let (_, done) = panel_program::answer_input(&mut rt.stdin(), &mut rt.stdout());
    done
}
