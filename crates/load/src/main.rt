// A load on eight ports: each slot one put, takes until none is said at every port, and an advance.
// The first argument is the number of slots, the others are the kinds of cabinet; a line for each tells what came out.
#![tactic(auto)]

use anyhow::anyhow;
use cabinet::Cabinet;
use draft::Port;
use gathering::{Gathering, Period};
use latest::{Due, Latest};
use ports::{Kind, Table};
use prompt::{Prompt, Wire};
use service::Frame;
use std::env;

const PORTS: usize = 8;

const FIGURES: Port = Port {
    rate: 100,
    latency: 20,
    stay: 5,
    shortest: 1000,
};

// What a load did: frames that were put, frames that were refused, and a sum over those that came out, in order.
#[derive(Clone, Copy, Default)]
struct Outcome {
    put: u64,
    refused: u64,
    sum: u64,
}

// The next of a fixed row of numbers.
fn next(dice: u64) -> u64 {
    dice.wrapping_mul(6364136223846793005)
        .wrapping_add(1442695040888963407)
}

fn frame(dice: u64) -> Frame {
    Frame {
        flow: ((dice >> 40) % 64) as u8,
        len: 900 + (dice >> 48) as u32 % 800,
        ..Frame::default()
    }
}

// Takes from a port until none is said, and counts each frame into the sum.
fn empty<C: Cabinet>(cabinet: &mut C, port: usize, before: u64) -> u64 {
    let mut sum = before;
    // A line holds 32 frames; a `while let` would have to show that the cabinet ends.
    for _turn in 0..32u64 {
        let Some(frame) = cabinet.take(port) else {
            break;
        };
        let mark = frame.entry ^ frame.due.rotate_left(20) ^ u64::from(frame.flow).rotate_left(50);
        sum = sum.wrapping_mul(31).wrapping_add(mark);
    }
    sum
}

fn load<C: Cabinet>(cabinet: &mut C, slots: u64) -> Outcome {
    let mut outcome = Outcome::default();
    let mut dice = 1;
    for _slot in 0..slots {
        dice = next(dice);
        match cabinet.put((dice >> 33) as usize % PORTS, frame(dice)) {
            Ok(()) => outcome.put = outcome.put.wrapping_add(1),
            Err(_) => outcome.refused = outcome.refused.wrapping_add(1),
        }
        // A cabinet is asked by the port's number.
        for port in 0..PORTS {
            outcome.sum = empty(cabinet, port, outcome.sum);
        }
        let _ = cabinet.advance();
    }
    outcome
}

// The load on a cabinet whose ports all have this of their kind.
fn loaded<K: Kind>(slots: u64, mut cabinet: Table<K>, own: K) -> Outcome {
    for _port in 0..PORTS {
        let _ = cabinet.add_port(FIGURES, own);
    }
    load(&mut cabinet, slots)
}

fn main(rt: HostRuntime) -> anyhow::Result<()> {
    let mut words = env::args(&rt)?.skip(1);
    let Some(first) = words.next() else {
        return Err(anyhow!("how many slots?"));
    };
    let slots: u64 = first.as_str().parse()?;
    for word in words {
        // The kinds are types, so that a word can only be matched to one.
        let outcome = match word.as_str() {
            "latest" => loaded(slots, Latest::new(), Due),
            "gathering" => loaded(slots, Gathering::new(), Period::new(8)),
            "prompt" => loaded(slots, Prompt::new(), Wire::new(250, 10)),
            _ => return Err(anyhow!("no such kind")),
        };
        println!(rt;
            "{}: put {}, refused {}, sum {}",
            word.as_str(),
            outcome.put,
            outcome.refused,
            outcome.sum
        )?;
    }
    Ok(())
}
