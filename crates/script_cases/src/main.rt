// Plays the script on standard input, and says at the end how many lines were in error: what it prints is compared.
#![tactic(auto)]

use runner::play;
use std::io::BufReader;

fn run(rt: &HostRuntime) -> anyhow::Result<()> {
    let bad = play(rt, BufReader::new(rt.alloc(), rt.stdin())?)?;
    println!(rt; "{bad} lines in error")?;
    Ok(())
}

fn main(rt: HostRuntime) -> anyhow::Result<()> {
    run(&rt)
}
