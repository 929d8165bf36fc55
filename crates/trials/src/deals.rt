// Deals: the example, circuits made at random over both kinds of group, and what the dealer refuses.
use crate::bytes::SQUARES;
use crate::random::{Random, random_circuit};
use circuits::Circuit;
use dealer::{deal_part, fill, part_length, place_length, shift_part, slot, tape_length};
use files::{Gate, read};
use groups::bitwise::Xor;
use groups::masks::MaskGroup;
use groups::modular::Mod;
use refusals::Refusal;
use std::alloc::{AllocError, Global};
use std::process::Abort;
use std::test::Fail;

fn at(xs: &[u8], k: usize) -> u8 {
    xs.get(k).copied().unwrap_or(0)
}

// The sum of the parties' shares of column k, the columns being the last of each part.
fn column_sum<G: MaskGroup>(group: &G, parts: &[Vec<u8>], columns: usize, k: usize) -> u8 {
    parts.iter().fold(0, |sum, part| {
        let own = part.len().saturating_sub(columns);
        group.add(sum, at(part.as_slice(), own.saturating_add(k)))
    })
}

// Whether the parts add up to what is owed under these masks.
fn adds_up<G: MaskGroup>(
    heap: Global,
    group: &G,
    circuit: &Circuit<'_>,
    masks: &[u8],
    parts: &[Vec<u8>],
) -> Result<bool, AllocError> {
    let mut owed = Vec::new(heap);
    for lookup in circuit.lookups() {
        let operand = at(masks, usize::from(lookup.operand));
        let table = circuit.table(lookup.table);
        for j in (0..=255u8).take(table.len()) {
            let entry = at(table, usize::from(group.subtract(j, operand)));
            owed.push(group.add(entry, at(masks, lookup.wire)))?;
        }
    }
    for output in circuit.outputs() {
        owed.push(at(masks, usize::from(*output)))?;
    }
    let cells = usize::from(circuit.size()) * usize::from(circuit.look_count());
    let columns = cells + circuit.output_count();
    let mut shares = owed.iter().enumerate();
    Ok(
        owed.len() == columns
            && shares.all(|(k, share)| column_sum(group, parts, columns, k) == *share),
    )
}

// Deals a tape to all parties, and says whether the parts add up.
fn deals<G: MaskGroup>(
    heap: Global,
    group: &G,
    circuit: &Circuit<'_>,
    random: &mut Random,
) -> Result<bool, Fail> {
    let mut bytes = vec![in heap; 0u8; tape_length(circuit)]?;
    random.fill(bytes.as_mut_slice());
    let mut tape = vec![in heap; 0u8; bytes.len()]?;
    fill(group, bytes.as_slice(), tape.as_mut_slice())?;
    let mut masks = vec![in heap; 0u8; circuit.wire_count()]?;
    let mut parts = Vec::new(heap);
    for party in 0..circuit.parties() as u8 {
        let mut part = vec![in heap; 0u8; part_length(circuit, party)?]?;
        deal_part(
            group,
            circuit,
            tape.as_slice(),
            party,
            masks.as_mut_slice(),
            part.as_mut_slice(),
        )?;
        parts.push(part)?;
    }
    Ok(adds_up(heap, group, circuit, masks.as_slice(), parts.as_slice())?)
}

fn random_deals<G: MaskGroup>(
    rt: &impl Abort,
    heap: Global,
    group: &G,
    start: u32,
) -> Result<(), Fail> {
    let mut random = Random::new(start);
    for i in 0..8u16 {
        let file = random_circuit(heap, &mut random, group.size(), 2 + i % 7)?;
        let mut gates = vec![in heap; Gate::default(); 12]?;
        let mut outputs = vec![in heap; 0u16; 3]?;
        read(
            file.as_slice(),
            gates.as_mut_slice(),
            outputs.as_mut_slice(),
        )?;
        let mut circuit = Circuit::single();
        circuit.replace(file.as_slice(), gates.as_slice(), outputs.as_slice())?;
        assert!(rt; deals(heap, group, &circuit, &mut random)?);
    }
    Ok(())
}

#[test]
fn parts_add_up(rt: HostRuntime) -> Result<(), Fail> {
    let heap = rt.alloc();
    random_deals(&rt, heap, &Xor::new(2)?, 1)?;
    random_deals(&rt, heap, &Xor::new(16)?, 2)?;
    random_deals(&rt, heap, &Xor::new(256)?, 3)?;
    random_deals(&rt, heap, &Mod::new(2)?, 4)?;
    random_deals(&rt, heap, &Mod::new(10)?, 5)?;
    random_deals(&rt, heap, &Mod::new(256)?, 6)
}

// Masks 4 and 8 for the inputs and 5 for the LOOK; party 0 has 6 in cell 5, and 9 for the output.
const TAPE: [u8; 14] = [4, 8, 5, 0, 1, 2, 3, 4, 6, 6, 7, 8, 9, 9];

// The group's size, how much of the tape is handed in, where it has a 10, the party, the lengths of the buffers, and the
// refusal.
const REFUSED: [(u32, usize, usize, u8, usize, usize, Refusal); 8] = [
    (11, 0, 0, 9, 0, 0, Refusal::Counts),
    (10, 0, 0, 2, 0, 0, Refusal::Party),
    (10, 13, 0, 0, 4, 12, Refusal::Length),
    (10, 14, 0, 0, 3, 12, Refusal::Length),
    (10, 14, 0, 0, 5, 12, Refusal::Length),
    (10, 14, 0, 0, 4, 13, Refusal::Length),
    (10, 14, 0, 0, 4, 12, Refusal::NotCode),
    (10, 14, 13, 1, 4, 12, Refusal::NotCode),
];

fn refuses(rt: &impl Abort, circuit: &Circuit<'_>) -> Result<(), Fail> {
    for (size, count, at, party, mask_places, part_places, refusal) in REFUSED {
        let mut tape = TAPE;
        tape[at % 14] = 10;
        let mut masks = [200; 5];
        let mut part = [200; 13];
        let group = Mod::new(size)?;
        let m = &mut masks[..mask_places.min(5)];
        let p = &mut part[..part_places.min(13)];
        let answer = deal_part(&group, circuit, &tape[..count.min(14)], party, m, p);
        assert!(rt; answer == Err(refusal) && masks == [200; 5] && part == [200; 13]);
    }
    Ok(())
}

fn lengths(rt: &impl Abort, c: &Circuit<'_>) {
    assert!(rt; tape_length(c) == 14);
    assert!(rt; part_length(c, 0) == Ok(12) && part_length(c, 1) == Ok(12));
    assert!(rt; place_length(c, 0) == Ok(16) && place_length(c, 2) == Err(Refusal::Party));
    assert!(rt;
        part_length(c, 2) == Err(Refusal::Party) && part_length(c, 255) == Err(Refusal::Party)
    );
    assert!(rt; slot(c, 0, 0) == Some(0) && slot(c, 1, 1) == Some(0));
    assert!(rt; slot(c, 0, 1) == None && slot(c, 1, 0) == None && slot(c, 0, 2) == None);
}

#[test]
fn example_deal(rt: HostRuntime) -> Result<(), Fail> {
    let mut gates = [Gate::default(); 2];
    let mut outputs = [0; 1];
    read(&SQUARES, &mut gates, &mut outputs)?;
    let mut circuit = Circuit::single();
    circuit.replace(&SQUARES, &gates, &outputs)?;
    lengths(&rt, &circuit);
    let ten = Mod::new(10)?;
    let mut masks = [0; 4];
    let mut first = [0; 12];
    let mut second = [0; 12];
    deal_part(&ten, &circuit, &TAPE, 0, &mut masks, &mut first)?;
    deal_part(&ten, &circuit, &TAPE, 1, &mut masks, &mut second)?;
    assert!(rt; masks == [4, 8, 2, 5]);
    assert!(rt; first == [4, 0, 1, 2, 3, 4, 6, 6, 7, 8, 9, 9]);
    // cell 5 adds to 4: the square of 5 - 2, and 5
    assert!(rt; second[0] == 8 && second[6] == 8 && second[11] == 6);
    refuses(&rt, &circuit)
}

#[test]
fn fills(rt: HostRuntime) -> Result<(), Fail> {
    let ten = Mod::new(10)?;
    let mut tape = [77; 4];
    assert!(rt; fill(&ten, &[0, 9, 10], &mut tape) == Err(Refusal::Length) && tape == [77; 4]);
    fill(&ten, &[0, 9, 10, 255], &mut tape)?;
    assert!(rt; tape == [0, 9, 0, 5]);
    fill(&Xor::new(256)?, &[0, 9, 10, 255], &mut tape)?;
    assert!(rt; tape == [0, 9, 10, 255]);
    Ok(())
}

// Party 0 entered 7, and 1 is to be hidden behind it: its mask moves by 6, as does that of the sum, and the squares of 3 and
// of 7 are both 9, so that the mask of the LOOK stays.
const DIFFERENCES: [u8; 4] = [6, 0, 6, 0];

#[test]
fn example_shift(rt: HostRuntime) -> Result<(), Fail> {
    let mut gates = [Gate::default(); 2];
    let mut outputs = [0; 1];
    read(&SQUARES, &mut gates, &mut outputs)?;
    let mut circuit = Circuit::single();
    circuit.replace(&SQUARES, &gates, &outputs)?;
    let ten = Mod::new(10)?;
    let mut masks = [0; 4];
    let mut part = [0; 12];
    deal_part(&ten, &circuit, &TAPE, 0, &mut masks, &mut part)?;
    let mut shifted = [200; 12];
    shift_part(&ten, &circuit, 0, &masks, &DIFFERENCES, &part, &mut shifted)?;
    // the mask is 4 and 6; cell 1 was to come to 6, the square of 9 and 5, and comes to 4, the square of 3 and 5, so that its
    // share gains 8; cell 5 came to 4, the square of 3 and 5, and does again, the square of 7 and 5
    assert!(rt; shifted[0] == 0 && shifted[2] == 9 && shifted[6] == 6 && shifted[11] == 9);
    let mut other = [200; 12];
    let eleven = Mod::new(11)?;
    assert!(rt; shift_part(&eleven, &circuit, 9, &[], &[], &[], &mut []) == Err(Refusal::Counts));
    assert!(rt; shift_part(&ten, &circuit, 2, &[], &[], &[], &mut []) == Err(Refusal::Party));
    // a mask, a difference, a number of the part or a place too few
    for (m, d, p, places) in [
        (3, 4, 12, 12),
        (4, 3, 12, 12),
        (4, 4, 11, 12),
        (4, 4, 12, 11),
    ] {
        let to = &mut other[..places.min(12)];
        let answer = shift_part(
            &ten,
            &circuit,
            0,
            &masks[..m.min(4)],
            &DIFFERENCES[..d.min(4)],
            &part[..p.min(12)],
            to,
        );
        assert!(rt; answer == Err(Refusal::Length));
    }
    assert!(rt;
        shift_part(&ten, &circuit, 0, &masks, &[10, 0, 6, 0], &part, &mut other)
            == Err(Refusal::NotCode)
    );
    assert!(rt; other == [200; 12]);
    Ok(())
}
