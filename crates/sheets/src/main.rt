// Prints the sheets of many plan files, each after the file's name.
#![tactic(auto)]

use anyhow::bail;
use plan::Plan;
use printing::print;
use refusal::Refusal;
use std::io::Write;
use std::{env, fs};
use table::least;

fn sheet(rt: &HostRuntime, name: &str) -> anyhow::Result<()> {
    let bytes = fs::read(rt, name)?;
    let mut place = [0; 4096];
    println!(rt; "{name}")?;
    let Ok(count) = print(&bytes, &mut place) else {
        bail!("the place is too small");
    };
    rt.stdout().write_all(&place[..count])?;
    Ok(())
}

// The refusals that no file can earn: of a scratch or a place that is too small.
fn small_memory(rt: &HostRuntime) -> anyhow::Result<()> {
    if let Err(fault) = least(Plan::empty(), 1, &mut [0; 511]) {
        println!(rt; "scratch of 511: {}", Refusal::from(fault))?;
    }
    if let Err(fault) = print(b"", &mut [0; 4095]) {
        println!(rt; "place of 4095: {}", Refusal::from(fault))?;
    }
    Ok(())
}

fn main(rt: HostRuntime) -> anyhow::Result<()> {
    for name in env::args(&rt)?.skip(1) {
        sheet(&rt, name.as_str())?;
    }
    small_memory(&rt)
}
