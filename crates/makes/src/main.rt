// The worked example of cabinets: in which slots each make hands over the same three frames, and what is refused.
#![tactic(auto)]

use another_make::{Counting, Hesitant};
use cabinet::{Cabinet, CabinetFault, drain};
use draft::Port;
use gathering::{Gathering, Period};
use latest::{Due, Latest};
use line::Queue;
use prompt::{Prompt, Wire};
use refusal::Refusal;
use service::Frame;
use std::io;

const FIGURES: Port = Port {
    rate: 100,
    latency: 0,
    stay: 5,
    shortest: 1000,
};

// A frame of a flow.
fn frame(flow: u8, len: u32) -> Frame {
    Frame {
        flow,
        len,
        ..Frame::default()
    }
}

// The answer in one word, or the refusal's layer, number and place.
fn tell(rt: &HostRuntime, what: &str, answer: Result<(), CabinetFault>) -> io::Result<()> {
    match answer {
        Ok(()) => println!(rt; "{what}: accepted"),
        Err(fault) => {
            let refusal = Refusal::from(fault);
            println!(rt; "{what}: {refusal}")
        }
    }
}

// Notes the slot for each frame that the cabinet hands over in it.
fn hand_over<C: Cabinet>(cabinet: &mut C, slots: &mut [u64; 3]) {
    let slot = cabinet.slot();
    let mut places = [frame(0, 0); 32];
    let mut tray = Queue::new(&mut places);
    if drain(cabinet, 0, &mut tray).is_none() {
        return;
    }
    for frame in (0..tray.len()).filter_map(|i| tray.get(i)) {
        if let Some(handed) = slots.get_mut(usize::from(frame.flow)) {
            *handed = slot;
        }
    }
}

// Frames of 1,000 bits are put in slots 0, 0 and 3.
fn example<C: Cabinet>(rt: &HostRuntime, name: &str, cabinet: &mut C) -> io::Result<()> {
    let mut slots = [0; 3];
    let _ = cabinet.put(0, frame(0, 1000));
    let _ = cabinet.put(0, frame(1, 1000));
    // Slot by slot.
    for slot in 0..40u64 {
        if slot == 3 {
            let _ = cabinet.put(0, frame(2, 1000));
        }
        hand_over(cabinet, &mut slots);
        let _ = cabinet.advance();
    }
    let [first, second, third] = slots;
    println!(rt; "{name}: {first} {second} {third}")
}

// What put and advance refuse, in order.
fn refusals<C: Cabinet>(rt: &HostRuntime, cabinet: &mut C) -> io::Result<()> {
    tell(
        rt,
        "put at a port that is lacking",
        cabinet.put(1, frame(0, 1000)),
    )?;
    tell(rt, "put too short", cabinet.put(0, frame(0, 999)))?;
    tell(rt, "put too long", cabinet.put(0, frame(0, 100_001)))?;
    for _turn in 0..32u64 {
        let _ = cabinet.put(0, frame(0, 1000));
    }
    tell(rt, "put the 33rd", cabinet.put(0, frame(0, 1000)))?;
    for _turn in 0..10u64 {
        let _ = cabinet.advance();
    }
    tell(rt, "advance past a due frame", cabinet.advance())?;
    println!(rt; "in slot {}, {} wait", cabinet.slot(), cabinet.waiting(0))
}

fn main(rt: HostRuntime) -> io::Result<()> {
    let mut latest = Latest::new();
    tell(&rt, "latest, a port", latest.add_port(FIGURES, Due))?;
    let mut again = latest;
    let mut hesitant = Hesitant::new(latest);
    example(&rt, "latest", &mut latest)?;
    tell(
        &rt,
        "latest, a port when not fresh",
        latest.add_port(FIGURES, Due),
    )?;
    let mut prompt = Prompt::new();
    tell(
        &rt,
        "prompt, C 99",
        prompt.add_port(FIGURES, Wire::new(99, 0)),
    )?;
    tell(
        &rt,
        "prompt, C 1000",
        prompt.add_port(FIGURES, Wire::new(1000, 0)),
    )?;
    example(&rt, "prompt", &mut prompt)?;
    let mut gathering = Gathering::new();
    tell(
        &rt,
        "gathering, G 7",
        gathering.add_port(FIGURES, Period::new(7)),
    )?;
    tell(
        &rt,
        "gathering, G 6",
        gathering.add_port(FIGURES, Period::new(6)),
    )?;
    example(&rt, "gathering", &mut gathering)?;
    let mut counting = Counting::new();
    tell(&rt, "counting, a port", counting.add_port(FIGURES))?;
    example(&rt, "counting", &mut counting)?;
    example(&rt, "latest, inside a hesitant one", &mut hesitant)?;
    refusals(&rt, &mut again)
}
