// Carries out the scenario on standard input. Why it stopped before its end is told on standard error.
#![tactic(auto)]

use std::io;

fn main(rt: HostRuntime) -> io::Result<()> {
    match runner::run(rt.alloc(), rt.stdin(), rt.stdout()) {
        Ok(_) => Ok(()),
        Err(e) => {
            eprintln!(rt; "scenario: {e}")?;
            Err(e)
        }
    }
}
