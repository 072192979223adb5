// Replays recorded lists from standard input. A block is a sheet, read or only displayed, entry calls, questions and the expected answers, or a
// sheet with acts on its panel and its history; a row is the conversion of a grid line and back. Prints the first lines of those that differ, how
// many there are, and how many differ. Some are wrong on purpose, and say so.

#![tactic(auto)]

mod answers;
mod block;
mod calls;
mod cells;
mod conversions;
mod counts;
mod expected;
mod histories;
mod hits;
mod input;
mod marks;
mod names;
mod nearest;
mod panel;
mod questions;
mod replay;
mod resizes;
mod settled;
mod tables;
mod trials;
mod window;

use replay::replay_all;
use std::io;
use tables::Tables;
use window::Window;

fn main(rt: HostRuntime) -> io::Result<()> {
    let mut out = rt.stdout();
    let mut window = Window::new();
    let mut tables = Tables::new();
    let counts = replay_all(&mut rt.stdin(), &mut out, &mut window, &mut tables)?;
    counts.print(&mut out)
}
