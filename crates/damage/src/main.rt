// Damages a plan file in every place and tells the answer to each: cut short, bytes changed, a record too many.
#![tactic(auto)]

use printing::quote_of;
use refusal::Refusal;
use std::io;
use std::io::Read;
use std::iter::repeat_n;

// As many bytes as are read at most.
const LONGEST: usize = 4096;

// What a byte is changed to: ends of its range, small numbers, and the kinds of records.
const CHANGES: [u8; 8] = [0, 1, 2, b'B', b'E', b'F', b'P', 255];

// One line: what was done, and the refusal or the rounds.
fn tell(rt: &HostRuntime, what: &str, place: usize, value: u8, bytes: &[u8]) -> io::Result<()> {
    match quote_of(bytes) {
        Ok(quote) => println!(rt; "{what} {place} {value}: accepted, rounds {}", quote.rounds),
        Err(fault) => {
            let refusal = Refusal::from(fault);
            println!(rt;
                "{what} {place} {value}: {} at {}",
                refusal.number, refusal.place
            )
        }
    }
}

// By the length that is left.
fn cuts(rt: &HostRuntime, bytes: &[u8]) -> io::Result<()> {
    for n in 0..bytes.len() {
        tell(rt, "cut", n, 0, &bytes[..n])?;
    }
    Ok(())
}

// By index, since all bytes are read while one is changed.
fn changes(rt: &HostRuntime, bytes: &mut [u8]) -> io::Result<()> {
    for i in 0..bytes.len() {
        let old = bytes[i];
        for value in CHANGES {
            bytes[i] = value;
            tell(rt, "byte", i, value, bytes)?;
        }
        bytes[i] = old;
    }
    Ok(())
}

// As many copies of a record as told, rows numbered on, and an end record. After the kind and the number stand zeros.
// The letters are bytes here, since damaged files have any.
fn copies(rt: &HostRuntime, kind: u8, zeros: usize, count: u8) -> io::Result<()> {
    let mut file = Vec::new(rt.alloc());
    // The number is written into the record.
    for n in 0..count {
        let number = if kind == b'B' { n } else { 0 };
        file.extend_from_slice(&[kind, number])?;
        file.extend(repeat_n(0, zeros))?;
    }
    file.extend_from_slice(&[b'E', 0, 0, 0, count])?;
    tell(rt, "copies", usize::from(kind), count, &file)
}

fn main(rt: HostRuntime) -> io::Result<()> {
    // Fixed memory and whole reads, as the sheet's program has them.
    let mut file = [0; LONGEST];
    let mut rest = &mut file[..];
    io::copy(&mut rt.stdin().take(LONGEST as u64), &mut rest)?;
    let have = LONGEST.saturating_sub(rest.len());
    cuts(&rt, &file[..have])?;
    changes(&rt, &mut file[..have])?;
    for count in [32, 33] {
        copies(&rt, b'P', 15, count)?;
    }
    for count in [64, 65] {
        copies(&rt, b'F', 25, count)?;
        copies(&rt, b'B', 32, count)?;
    }
    Ok(())
}
