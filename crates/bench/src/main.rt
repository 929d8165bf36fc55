//! Figures, when asked for by a word on the command line; without one it says which there are, so that its run is fixed.

#![tactic(auto)]

use circuits::Circuit;
use dealer::{deal_part, part_length, tape_length};
use files::{Gate, Kind, read};
use groups::bitwise::Xor;
use refusals::Refusal;
use std::alloc::{AllocError, Global};
use std::env;
use std::time::Instant;

// Written here, since a program has nothing of what the tests are made of.
//
// A file of 256 codes with one input, one table and `gates` gates, of which every seventeenth is a LOOK and the others ADD.
fn circuit_file(heap: Global, parties: u16, gates: u16) -> Result<Vec<u8>, AllocError> {
    let mut f = Vec::new(heap);
    let length = 5 * u32::from(gates);
    for n in [256, parties, 1, gates, 1, 0, 1] {
        f.extend_from_slice(&n.to_le_bytes())?;
    }
    for n in [54, 1, 55, 256, 311, 0, 311, length, 311 + length, 2] {
        f.extend_from_slice(&n.to_le_bytes())?;
    }
    f.push(0)?;
    for n in 0..=255u8 {
        f.push(n)?;
    }
    for k in 0..gates {
        let kind = if k % 17 == 16 && k < 4080 {
            Kind::Look
        } else {
            Kind::Add
        };
        f.extend_from_slice(&[kind as u8, 0, 0, 0, 0])?;
    }
    f.extend_from_slice(&[0, 0])?;
    Ok(f)
}

fn count_looks(file: &[u8], records: &mut [Gate]) -> Result<u16, Refusal> {
    let mut outputs = [0];
    let contents = read(file, records, &mut outputs)?;
    Ok(contents.looks)
}

fn time_read(rt: &HostRuntime, gates: u16) -> anyhow::Result<()> {
    let heap = rt.alloc();
    let file = circuit_file(heap, 2, gates)?;
    let mut records = vec![in heap; Gate::default(); 4096]?;
    let start = Instant::now(rt)?;
    let mut looks = 0u64;
    for _ in 0..1000 {
        let found = count_looks(file.as_slice(), records.as_mut_slice())?;
        looks = looks.wrapping_add(u64::from(found));
    }
    let micros = start.elapsed(rt)?.as_micros() / 1000;
    let length = file.len();
    println!(rt; "READ of {gates} gates, {length} bytes: {micros} us ({looks})")?;
    Ok(())
}

// PART for the first party and for the last, over 256 codes.
fn time_parts(rt: &HostRuntime, circuit: &Circuit<'_>) -> anyhow::Result<()> {
    let heap = rt.alloc();
    let group = Xor::new(256)?;
    let mut tape = vec![in heap; 0u8; tape_length(circuit)]?;
    for (i, b) in tape.as_mut_slice().iter_mut().enumerate() {
        *b = (i % 251) as u8;
    }
    let mut masks = vec![in heap; 0u8; circuit.wire_count()]?;
    let looks = circuit.look_count();
    for party in [0, 7] {
        let mut part = vec![in heap; 0u8; part_length(circuit, party)?]?;
        let start = Instant::now(rt)?;
        for _ in 0..100 {
            deal_part(
                &group,
                circuit,
                tape.as_slice(),
                party,
                masks.as_mut_slice(),
                part.as_mut_slice(),
            )?;
        }
        let micros = start.elapsed(rt)?.as_micros() / 100;
        let length = tape.len();
        println!(rt;
            "PART of party {party} of 8, {looks} LOOK gates, tape of {length}: {micros} us"
        )?;
    }
    Ok(())
}

fn time_part(rt: &HostRuntime) -> anyhow::Result<()> {
    let heap = rt.alloc();
    let file = circuit_file(heap, 8, 4096)?;
    let mut records = vec![in heap; Gate::default(); 4096]?;
    let mut outputs = vec![in heap; 0u16; 1]?;
    let contents = read(
        file.as_slice(),
        records.as_mut_slice(),
        outputs.as_mut_slice(),
    )?;
    let found = contents.looks;
    println!(rt; "a circuit of 4096 gates, {found} of them LOOK")?;
    let mut circuit = Circuit::single();
    circuit.replace(file.as_slice(), records.as_slice(), outputs.as_slice())?;
    time_parts(rt, &circuit)
}

// What can be measured.
#[derive(Clone, Copy, PartialEq, Eq, Debug)]
enum Figures {
    Read,
    Part,
}

impl Figures {
    // The figures that a word asks for.
    fn named(word: &str) -> Option<Figures> {
        // The words of a command line are few and known.
        match word {
            "read" => Some(Figures::Read),
            "part" => Some(Figures::Part),
            _ => None,
        }
    }

    fn measure(self, rt: &HostRuntime) -> anyhow::Result<()> {
        // Two figures, and how each is measured.
        match self {
            Figures::Read => {
                for gates in [1024, 2048, 4096] {
                    time_read(rt, gates)?;
                }
                Ok(())
            }
            Figures::Part => time_part(rt),
        }
    }
}

fn run(rt: &HostRuntime) -> anyhow::Result<()> {
    let mut asked = Vec::new(rt.alloc());
    for word in env::args(rt)?.skip(1) {
        if let Some(figures) = Figures::named(word.as_str()) {
            asked.push(figures)?;
        }
    }
    if asked.is_empty() {
        println!(rt; "bench read: times READ on files of 1024, 2048 and 4096 gates")?;
        println!(rt; "bench part: times PART for eight parties and 240 LOOK gates of 256 codes")?;
    }
    for figures in &asked {
        figures.measure(rt)?;
    }
    Ok(())
}

fn main(rt: HostRuntime) -> anyhow::Result<()> {
    run(&rt)
}
