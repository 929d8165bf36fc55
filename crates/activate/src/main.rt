//! One real task from first to last: the example circuit's file is read and tested, made a circuit, run in the
//! clear, and dealt to its parties.

#![tactic(auto)]

use circuits::Circuit;
use clear::evaluate;
use dealer::{deal_part, part_length};
use files::{Contents, Gate, Header, read};
use groups::choice::group;
use groups::masks::MaskGroup;
use groups::modular::Mod;
use std::fs;

// Masks 4 and 8 for the inputs and 5 for the LOOK, then party 0's ten cells and its output share.
const TAPE: [u8; 14] = [4, 8, 5, 0, 1, 2, 3, 4, 6, 6, 7, 8, 9, 9];

fn describe(rt: &impl Print, contents: &Contents<'_>) -> anyhow::Result<()> {
    let Header {
        size,
        parties,
        inputs,
        gates,
        tables,
        rows,
        outputs,
    } = contents.header;
    let looks = contents.looks;
    println!(rt;
        "{size} codes, {parties} parties, {inputs} inputs, {gates} gates ({looks} LOOK), {tables} tables, {rows} rows, {outputs} outputs"
    )?;
    println!(rt; "owners of the inputs: {:?}", contents.owners)?;
    Ok(())
}

fn list(rt: &impl Print, circuit: &Circuit<'_>) -> anyhow::Result<()> {
    for (wire, gate) in (circuit.input_count()..).zip(circuit.gates()) {
        println!(rt; "wire {wire}: {} {} {}", gate.kind, gate.first, gate.second)?;
    }
    Ok(())
}

// The circuit in the clear, for any group of its size.
fn run<G: MaskGroup>(
    rt: &HostRuntime,
    group: &G,
    circuit: &Circuit<'_>,
    values: &[u8],
) -> anyhow::Result<()> {
    let heap = rt.alloc();
    let mut wires = vec![in heap; 0u8; circuit.wire_count()]?;
    let mut outputs = vec![in heap; 0u8; circuit.output_count()]?;
    evaluate(
        group,
        circuit,
        values,
        wires.as_mut_slice(),
        outputs.as_mut_slice(),
    )?;
    println!(rt; "inputs {values:?}")?;
    println!(rt; "wires {wires:?}")?;
    println!(rt; "outputs {outputs:?}")?;
    Ok(())
}

// Deals the circuit from a tape: the mask of every wire, and each party's part.
fn deal<G: MaskGroup>(
    rt: &HostRuntime,
    group: &G,
    circuit: &Circuit<'_>,
    tape: &[u8],
) -> anyhow::Result<()> {
    let heap = rt.alloc();
    println!(rt; "tape {tape:?}")?;
    let mut masks = vec![in heap; 0u8; circuit.wire_count()]?;
    for party in 0..circuit.parties() as u8 {
        let mut part = vec![in heap; 0u8; part_length(circuit, party)?]?;
        deal_part(
            group,
            circuit,
            tape,
            party,
            masks.as_mut_slice(),
            part.as_mut_slice(),
        )?;
        if party == 0 {
            println!(rt; "masks {masks:?}")?;
        }
        println!(rt; "part of party {party}: {part:?}")?;
    }
    Ok(())
}

fn activate(rt: &HostRuntime) -> anyhow::Result<()> {
    let heap = rt.alloc();
    let file = fs::read(rt, "squares.circuit")?;
    let file = file.as_slice();
    println!(rt; "squares.circuit: {} bytes", file.len())?;
    let mut gates = vec![in heap; Gate::default(); 4096]?;
    let mut outputs = vec![in heap; 0u16; 64]?;
    let contents = read(file, gates.as_mut_slice(), outputs.as_mut_slice())?;
    describe(rt, &contents)?;
    let mut circuit = Circuit::single();
    circuit.replace(file, gates.as_slice(), outputs.as_slice())?;
    list(rt, &circuit)?;
    let kind = group("mod", 10)?.number();
    println!(rt; "mod 10 is a group of kind {kind}")?;
    let ten = Mod::new(10)?;
    run(rt, &ten, &circuit, &[7, 6])?;
    deal(rt, &ten, &circuit, &TAPE)
}

fn main(rt: HostRuntime) -> anyhow::Result<()> {
    activate(&rt)
}
