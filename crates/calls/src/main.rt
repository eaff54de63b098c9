// Runs a script of calls from standard input, one after the other on one planner, and prints a line each.
#![tactic(auto)]

mod answers;
mod input;
mod lent;
mod records;

use std::io;
use std::io::{Read, Write};

fn main(rt: HostRuntime) {
    if run(&mut rt.stdin(), &mut rt.stdout()).is_err() {
        let _ = eprintln!(rt; "calls: an answer was not written");
    }
}

// Runs records until the script ends, or an answer was not written.
// A proved loop has to end: no script has so many records.
fn run(script: &mut impl Read, out: &mut impl Write) -> io::Result<()> {
    let mut p = planner::empty();
    for _ in 0..u64::MAX {
        let Some(written) = records::next(script, out, &mut p) else {
            break;
        };
        written?;
    }
    Ok(())
}
