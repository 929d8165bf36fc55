// The greatest number of LOOK gates, and one more.
use crate::bytes::circuit_file;
use circuits::Circuit;
use files::{Gate, Kind, read};
use refusals::Refusal;
use std::alloc::{AllocError, Global};
use std::test::Fail;

// A file of two codes with one input, one table and `gates` gates, the first `looks` of them and the last LOOK gates, the
// others ADD.
fn file(heap: Global, gates: u16, looks: u16) -> Result<Vec<u8>, AllocError> {
    let mut entries = Vec::new(heap);
    for k in 0..gates {
        let kind = if k < looks || k + 1 == gates {
            Kind::Look
        } else {
            Kind::Add
        };
        entries.extend_from_slice(&[kind as u8, 0, 0, 0, 0])?;
    }
    circuit_file(
        heap,
        [2, 2, 1, gates, 1, 0, 1],
        [&[0], &[0, 1], &[], entries.as_slice(), &[0, 0]],
    )
}

// What READ answers of such a file: the LOOK gates that it counts.
fn answer(heap: Global, gates: u16, looks: u16) -> Result<Result<u16, Refusal>, AllocError> {
    let f = file(heap, gates, looks)?;
    let mut records = vec![in heap; Gate::default(); 4096]?;
    let mut outputs = [0];
    Ok(read(f.as_slice(), records.as_mut_slice(), &mut outputs).map(|contents| contents.looks))
}

// What CIRCUIT answers of a file with no LOOK gate but the last, and places that hold nothing but LOOK gates.
fn all_looks<'a>(file: &'a [u8], gates: &'a [Gate], outputs: &'a [u16]) -> Result<(), Refusal> {
    Circuit::single().replace(file, gates, outputs)
}

#[test]
fn counts_of_places(rt: HostRuntime) -> Result<(), Fail> {
    let heap = rt.alloc();
    let look = Gate {
        kind: Kind::Look,
        first: 0,
        second: 0,
    };
    let records = vec![in heap; look; 241]?;
    let few = file(heap, 240, 0)?;
    assert_eq!(rt; all_looks(few.as_slice(), records.as_slice(), &[0]), Ok(()));
    let many = file(heap, 241, 0)?;
    assert_eq!(rt;
        all_looks(many.as_slice(), records.as_slice(), &[0]),
        Err(Refusal::Limit(57 + 5 * 240))
    );
    Ok(())
}

#[test]
fn counts(rt: HostRuntime) -> Result<(), Fail> {
    let heap = rt.alloc();
    assert_eq!(rt; answer(heap, 240, 240)?, Ok(240));
    assert_eq!(rt; answer(heap, 241, 241)?, Err(Refusal::Limit(57 + 5 * 240)));
    assert_eq!(rt; answer(heap, 4096, 239)?, Ok(240));
    assert_eq!(rt;
        answer(heap, 4096, 240)?,
        Err(Refusal::Limit(57 + 5 * 4095))
    );
    Ok(())
}
