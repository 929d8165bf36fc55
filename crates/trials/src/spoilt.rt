// Places that were spoilt between READ and CIRCUIT.
use crate::bytes::ALL_KINDS;
use circuits::Circuit;
use files::{Gate, Kind, read};
use refusals::Refusal;

// What CIRCUIT answers of a file and these places, and how many codes the circuit held then has: 2 where it is still the
// one built in.
fn made<'a>(file: &'a [u8], gates: &'a [Gate], outputs: &'a [u16]) -> (Result<(), Refusal>, u16) {
    let mut held = Circuit::single();
    let answer = held.replace(file, gates, outputs);
    (answer, held.size())
}

// A gate's place, another record for it, and what CIRCUIT answers then.
const GATES: [(usize, Gate, Result<(), Refusal>); 7] = [
    (
        0,
        Gate {
            kind: Kind::Add,
            first: 2,
            second: 1,
        },
        Err(Refusal::Operand(79)),
    ),
    (
        0,
        Gate {
            kind: Kind::Add,
            first: 0,
            second: 2,
        },
        Err(Refusal::Operand(81)),
    ),
    (
        1,
        Gate {
            kind: Kind::Shift,
            first: 2,
            second: 10,
        },
        Err(Refusal::Code(86)),
    ),
    (
        2,
        Gate {
            kind: Kind::Map,
            first: 3,
            second: 1,
        },
        Err(Refusal::Operand(91)),
    ),
    (
        3,
        Gate {
            kind: Kind::Look,
            first: 5,
            second: 0,
        },
        Err(Refusal::Operand(94)),
    ),
    (
        3,
        Gate {
            kind: Kind::Look,
            first: 4,
            second: 1,
        },
        Err(Refusal::Operand(96)),
    ),
    (
        3,
        Gate {
            kind: Kind::Shift,
            first: 4,
            second: 9,
        },
        Ok(()),
    ),
];

#[test]
fn one_record(rt: HostRuntime) {
    let mut gates = [Gate::default(); 5];
    let mut outputs = [0; 3];
    assert!(rt; read(&ALL_KINDS, &mut gates, &mut outputs).is_ok());
    assert_eq!(rt; made(&ALL_KINDS, &gates, &outputs), (Ok(()), 10));
    for (at, gate, expected) in GATES {
        let mut other = gates;
        other[at % 5] = gate;
        let size = if expected.is_ok() { 10 } else { 2 };
        assert_eq!(rt; made(&ALL_KINDS, &other, &outputs), (expected, size));
    }
    assert_eq!(rt;
        made(&ALL_KINDS, &gates, &[6, 2]),
        (Err(Refusal::Absent(99)), 2)
    );
    assert_eq!(rt;
        made(&ALL_KINDS, &gates, &[5, 6]),
        (Err(Refusal::Absent(101)), 2)
    );
    assert_eq!(rt;
        made(&ALL_KINDS, &gates[..3], &outputs),
        (Err(Refusal::Places(6)), 2)
    );
    assert_eq!(rt;
        made(&ALL_KINDS, &gates, &outputs[..1]),
        (Err(Refusal::Places(12)), 2)
    );
}
