// Reads a kit as readable text on standard input and writes its plan file.
#![tactic(auto)]

use anyhow::{bail, ensure};
use draft::limits::{MOST_HOPS, UNUSED};
use draft::{Draft, Flow, Mask, Path, Port, Row};
use file::encode;
use std::io::Write;
use std::str::SplitWhitespace;

// The most numbers on a line: four of a bucket, a mask and eight ports.
const MOST_NUMBERS: usize = 13;

// The longest plan file.
const LONGEST: usize = 4453;

// The numbers that the words say, at the front of a lent place, so that no memory is asked for them.
fn read_numbers<'a>(
    words: SplitWhitespace,
    place: &'a mut [u32; MOST_NUMBERS],
) -> anyhow::Result<&'a [u32]> {
    let mut count = 0;
    for word in words {
        ensure!(count < MOST_NUMBERS, "too many numbers on a line");
        place[count] = word.parse::<u32>()?;
        count += 1;
    }
    Ok(&place[..count.min(MOST_NUMBERS)])
}

// The three kinds of lines are read apart, since each says its own when it is refused.
fn add_port(draft: &mut Draft, numbers: &[u32]) -> anyhow::Result<()> {
    let &[rate, latency, stay, shortest] = numbers else {
        bail!("PORT takes rate, latency, least stay and shortest frame");
    };
    let n = draft.parts.size.ports;
    let Some(place) = draft.parts.ports.get_mut(n) else {
        bail!("there are more than 32 ports");
    };
    *place = Port {
        rate,
        latency,
        stay,
        shortest,
    };
    draft.parts.size.ports = n + 1;
    Ok(())
}

// The path through these ports.
fn path(numbers: &[u32]) -> anyhow::Result<Path> {
    let mut ports = [UNUSED; MOST_HOPS];
    for (port, number) in ports.iter_mut().zip(numbers) {
        *port = u8::try_from(*number)?;
    }
    Ok(Path {
        hops: numbers.len().min(MOST_HOPS) as u8,
        ports,
    })
}

// The path begins at the sixth number.
fn add_flow(draft: &mut Draft, numbers: &[u32]) -> anyhow::Result<()> {
    let &[rate, burst, shortest, longest, bits, _, ..] = numbers else {
        bail!("FLOW takes rate, burst, shortest and longest frame, mask and the path's ports");
    };
    let n = draft.parts.size.flows;
    let Some(place) = draft.parts.flows.get_mut(n) else {
        bail!("there are more than 64 flows");
    };
    let mask = Mask {
        bits: u8::try_from(bits)?,
    };
    *place = Flow {
        rate,
        burst,
        shortest,
        longest,
        path: path(&numbers[5..])?,
        mask,
    };
    draft.parts.size.flows = n + 1;
    Ok(())
}

fn add_row(draft: &mut Draft, numbers: &[u32]) -> anyhow::Result<()> {
    ensure!(numbers.len() <= MOST_HOPS, "ROW takes at most eight cells");
    let n = draft.proposal.rows;
    let Some(place) = draft.proposal.table.rows.get_mut(n) else {
        bail!("there are more than 64 rows");
    };
    let mut cells = [0; MOST_HOPS];
    cells[..numbers.len()].copy_from_slice(numbers);
    *place = Row { cells };
    draft.proposal.rows = n + 1;
    Ok(())
}

// One line of text: a port, a flow, a row, or a remark.
fn add(draft: &mut Draft, line: &str) -> anyhow::Result<()> {
    let mut place = [0; MOST_NUMBERS];
    let mut words = line.split_whitespace();
    match words.next() {
        None => Ok(()),
        Some("PORT") => add_port(draft, read_numbers(words, &mut place)?),
        Some("FLOW") => add_flow(draft, read_numbers(words, &mut place)?),
        Some("ROW") => add_row(draft, read_numbers(words, &mut place)?),
        Some(word) if word.starts_with('#') => Ok(()),
        Some(_) => bail!("a line begins with PORT, FLOW, ROW or #"),
    }
}

fn run(rt: &HostRuntime) -> anyhow::Result<()> {
    let mut draft = Draft::empty();
    for line in rt.lines(rt.alloc()) {
        add(&mut draft, line?.as_str())?;
    }
    let mut place = [0; LONGEST];
    let Some(size) = encode(&draft, &mut place) else {
        bail!("no plan file can hold this");
    };
    rt.stdout().write_all(&place[..size])?;
    Ok(())
}

fn main(rt: HostRuntime) -> anyhow::Result<()> {
    run(&rt)
}
