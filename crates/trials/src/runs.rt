// Clear runs, and what the clear run refuses.
use crate::bytes::ALL_KINDS;
use circuits::Circuit;
use clear::evaluate;
use files::{Gate, read};
use groups::masks::MaskGroup;
use groups::modular::Mod;
use refusals::Refusal;
use std::process::Abort;
use std::test::Fail;

// What the clear run of a circuit answers, and what it leaves in buffers that held 200.
fn answer<G: MaskGroup>(
    group: &G,
    circuit: &Circuit<'_>,
    values: &[u8],
    places: (usize, usize),
) -> (Result<(), Refusal>, [u8; 8], [u8; 4]) {
    let mut w = [200; 8];
    let mut o = [200; 4];
    let wires = &mut w[..places.0.min(8)];
    let outputs = &mut o[..places.1.min(4)];
    let answer = evaluate(group, circuit, values, wires, outputs);
    (answer, w, o)
}

// The group's size, three values and how many of them are handed in, the lengths of the buffers, and the refusal.
const REFUSED: [(u32, [u8; 3], usize, usize, usize, Refusal); 8] = [
    (11, [10, 0, 0], 1, 5, 1, Refusal::Counts),
    (10, [7, 6, 0], 1, 6, 2, Refusal::Length),
    (10, [7, 10, 3], 3, 6, 2, Refusal::Length),
    (10, [7, 6, 0], 2, 5, 2, Refusal::Length),
    (10, [7, 6, 0], 2, 7, 2, Refusal::Length),
    (10, [7, 6, 0], 2, 6, 3, Refusal::Length),
    (10, [10, 6, 0], 2, 6, 2, Refusal::NotCode),
    (10, [7, 255, 0], 2, 6, 2, Refusal::NotCode),
];

fn try_refused(rt: &impl Abort, circuit: &Circuit<'_>) -> Result<(), Fail> {
    for (size, values, count, wires, outputs, refusal) in REFUSED {
        let group = Mod::new(size)?;
        let (answered, w, o) = answer(&group, circuit, &values[..count.min(3)], (wires, outputs));
        assert!(rt; answered == Err(refusal) && w == [200; 8] && o == [200; 4]);
    }
    Ok(())
}

#[test]
fn all_kinds(rt: HostRuntime) -> Result<(), Fail> {
    let mut gates = [Gate::default(); 4];
    let mut outputs = [0; 2];
    read(&ALL_KINDS, &mut gates, &mut outputs)?;
    let mut circuit = Circuit::single();
    circuit.replace(&ALL_KINDS, &gates, &outputs)?;
    let ten = Mod::new(10)?;
    // 7 + 6 is 3, shifted by 7 is 0, nine times that is 0, whose square is 0
    let (answered, w, o) = answer(&ten, &circuit, &[7, 6], (6, 2));
    assert!(rt; answered == Ok(()) && w == [7, 6, 3, 0, 0, 0, 200, 200] && o == [0, 3, 200, 200]);
    // 4 + 4 is 8, shifted 5, nine times that 5, squared 5
    let (answered, w, o) = answer(&ten, &circuit, &[4, 4], (6, 2));
    assert!(rt; answered == Ok(()) && w == [4, 4, 8, 5, 5, 5, 200, 200] && o == [5, 8, 200, 200]);
    try_refused(&rt, &circuit)
}
