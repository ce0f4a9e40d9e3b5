// The program: plays the script that its argument names, `-` for standard input; with no argument, vets the tables of
// one harbour before a season.
#![tactic(auto)]

mod scenario;

use anyhow::anyhow;
use runner::play;
use scenario::vet_harbour;
use std::env;
use std::fs::File;
use std::io::BufReader;

// How many lines of the script were in error.
fn play_path(rt: &HostRuntime, path: &str) -> anyhow::Result<usize> {
    let heap = rt.alloc();
    if path == "-" {
        play(rt, BufReader::new(heap, rt.stdin())?)
    } else {
        play(rt, BufReader::new(heap, File::open(rt, path)?)?)
    }
}

// Its own complaints stand in quotes on standard error, as docs/SCRIPT.md shows.
fn run(rt: &HostRuntime) -> anyhow::Result<()> {
    let mut args = env::args(rt)?;
    let _ = args.next();
    let Some(path) = args.next() else {
        return vet_harbour(rt);
    };
    if args.next().is_some() {
        return Err(anyhow!("\"usage: binder [SCRIPT | -]\""));
    }
    if play_path(rt, path.as_str())? > 0 {
        return Err(anyhow!("\"some lines are in error\""));
    }
    Ok(())
}

fn main(rt: HostRuntime) -> anyhow::Result<()> {
    run(&rt)
}
