#![tactic(auto)]
// Replays a list of calls on the log.
// A program of its own, since the gate runs each program with one list.
use std::io;

fn main(rt: HostRuntime) -> io::Result<()> {
    if 0 < lists::replay(&rt)? {
        println!(rt; "the last line has no end")?;
    }
    Ok(())
}
