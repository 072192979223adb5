// The panel program on 20,000 tracks.

#![tactic(auto)]

use std::io;

fn main(rt: HostRuntime) -> io::Result<()> {
    let (_, done) = panel_program::answer_input(&mut rt.stdin(), &mut rt.stdout());
    done
}
