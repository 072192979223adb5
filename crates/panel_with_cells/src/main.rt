// The panel program on a panel with cells.

#![tactic(auto)]

use std::io;

fn main(rt: HostRuntime) -> io::Result<()> {
    let (_, done) = panel_program::answer_input(&mut rt.stdin(), &mut rt.stdout());
    done
}
