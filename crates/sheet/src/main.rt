// Reads a plan file on standard input and prints its quote sheet.
#![tactic(auto)]

use printing::print;
use std::io;
use std::io::{Read, Write};

// No answer depends on a byte past these: a plan file has at most 4,453, and its first refusal shows within 4,482.
const LONGEST: usize = 8192;

fn main(rt: HostRuntime) -> io::Result<()> {
    // Fixed memory and whole reads, so that no memory is asked for and a packet is read in one piece.
    let mut file = [0; LONGEST];
    let mut rest = &mut file[..];
    io::copy(&mut rt.stdin().take(LONGEST as u64), &mut rest)?;
    let have = LONGEST.saturating_sub(rest.len());
    let mut place = [0; 4096];
    match print(&file[..have], &mut place) {
        Ok(count) => rt.stdout().write_all(&place[..count]),
        Err(_) => Ok(()),
    }
}
