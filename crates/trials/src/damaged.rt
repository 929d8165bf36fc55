// Files with one thing wrong, and the refusal of each.
use crate::bytes::{ALL_KINDS, SQUARES, answer, changed, circuit_file};
use files::{Gate, Kind, UnknownKind, read};
use refusals::Refusal;
use std::alloc::{AllocError, Global};
use std::test::Fail;

// The byte at an offset of ALL_KINDS, another value for it, and what READ answers then.
const CHANGES: [(usize, u8, Result<(), Refusal>); 52] = [
    // counts
    (0, 1, Err(Refusal::Limit(0))),
    (2, 1, Err(Refusal::Limit(2))),
    (2, 9, Err(Refusal::Limit(2))),
    (4, 0, Err(Refusal::Limit(4))),
    (4, 161, Err(Refusal::Limit(4))),
    (7, 16, Err(Refusal::Limit(6))),
    (8, 17, Err(Refusal::Limit(8))),
    (10, 65, Err(Refusal::Limit(10))),
    (12, 0, Err(Refusal::Limit(12))),
    (12, 65, Err(Refusal::Limit(12))),
    // counts within their limits, which only the lengths of the sections then contradict
    (2, 8, Ok(())),
    (4, 160, Err(Refusal::Layout(14))),
    (7, 15, Err(Refusal::Layout(38))),
    (8, 16, Err(Refusal::Layout(22))),
    (10, 64, Err(Refusal::Layout(30))),
    (12, 64, Err(Refusal::Layout(46))),
    // pairs: an offset too low, a length that is another, an end past the file
    (14, 53, Err(Refusal::Layout(14))),
    (18, 3, Err(Refusal::Layout(14))),
    (22, 56, Err(Refusal::Layout(22))),
    (26, 9, Err(Refusal::Layout(22))),
    (30, 67, Err(Refusal::Layout(30))),
    (34, 7, Err(Refusal::Layout(30))),
    (38, 76, Err(Refusal::Layout(38))),
    (42, 21, Err(Refusal::Layout(38))),
    (46, 97, Err(Refusal::Layout(46))),
    (50, 5, Err(Refusal::Layout(46))),
    (46, 101, Err(Refusal::Layout(46))),
    // an end just at the end of the file
    (46, 100, Err(Refusal::Absent(100))),
    // owners, the first and the last
    (55, 2, Err(Refusal::Absent(55))),
    (56, 2, Err(Refusal::Absent(56))),
    // tables and rows, the first number and the last
    (58, 10, Err(Refusal::Code(58))),
    (67, 10, Err(Refusal::Code(67))),
    (69, 10, Err(Refusal::Code(69))),
    (76, 10, Err(Refusal::Code(76))),
    // kinds of the first gate and the last
    (78, 4, Err(Refusal::Kind(78))),
    (93, 4, Err(Refusal::Kind(93))),
    (93, 255, Err(Refusal::Kind(93))),
    // first operands of the first gate and the last
    (79, 2, Err(Refusal::Operand(79))),
    (94, 5, Err(Refusal::Operand(94))),
    (95, 1, Err(Refusal::Operand(94))),
    // second operands: a wire, a code, a row, a table
    (81, 2, Err(Refusal::Operand(81))),
    (86, 10, Err(Refusal::Code(86))),
    (91, 1, Err(Refusal::Operand(91))),
    (96, 1, Err(Refusal::Operand(96))),
    // outputs, the first and the last
    (99, 6, Err(Refusal::Absent(99))),
    (101, 6, Err(Refusal::Absent(101))),
    // bytes of the gaps are not read
    (54, 0, Ok(())),
    (57, 1, Ok(())),
    (68, 255, Ok(())),
    (77, 7, Ok(())),
    (98, 9, Ok(())),
    (103, 3, Ok(())),
];

#[test]
fn one_byte(rt: HostRuntime) {
    for (at, byte, expected) in CHANGES {
        assert_eq!(rt; changed(at, byte), expected);
    }
}

#[test]
fn lengths(rt: HostRuntime) {
    assert_eq!(rt; answer(&[]), Err(Refusal::Layout(0)));
    assert_eq!(rt; answer(&ALL_KINDS[..53]), Err(Refusal::Layout(53)));
    assert_eq!(rt; answer(&ALL_KINDS[..54]), Err(Refusal::Layout(46)));
    assert_eq!(rt; answer(&ALL_KINDS[..102]), Err(Refusal::Layout(46)));
    assert_eq!(rt; answer(&ALL_KINDS[..103]), Ok(()));
    assert_eq!(rt; SQUARES.len(), 78);
    assert_eq!(rt; answer(&SQUARES), Ok(()));
}

// What READ answers of a single wire in so many codes.
fn single(heap: Global, size: u16) -> Result<Result<(), Refusal>, AllocError> {
    let file = circuit_file(
        heap,
        [size, 2, 1, 0, 0, 0, 1],
        [&[0], &[], &[], &[], &[0, 0]],
    )?;
    Ok(answer(file.as_slice()))
}

#[test]
fn sizes(rt: HostRuntime) -> Result<(), Fail> {
    let heap = rt.alloc();
    assert_eq!(rt; single(heap, 1)?, Err(Refusal::Limit(0)));
    assert_eq!(rt; single(heap, 2)?, Ok(()));
    assert_eq!(rt; single(heap, 256)?, Ok(()));
    assert_eq!(rt; single(heap, 257)?, Err(Refusal::Limit(0)));
    Ok(())
}

const MARK: Gate = Gate {
    kind: Kind::Map,
    first: 77,
    second: 78,
};

#[test]
fn places(rt: HostRuntime) -> Result<(), Fail> {
    let mut gates = [MARK; 6];
    let mut outputs = [99; 4];
    assert_eq!(rt;
        read(&ALL_KINDS, &mut gates[..3], &mut outputs).err(),
        Some(Refusal::Places(6))
    );
    assert_eq!(rt;
        read(&ALL_KINDS, &mut gates, &mut outputs[..1]).err(),
        Some(Refusal::Places(12))
    );
    // the last number of the last section is wrong, and nothing was written
    let mut file = ALL_KINDS;
    file[101] = 6;
    assert_eq!(rt;
        read(&file, &mut gates, &mut outputs).err(),
        Some(Refusal::Absent(101))
    );
    assert!(rt; gates == [MARK; 6] && outputs == [99; 4]);
    let contents = read(&ALL_KINDS, &mut gates, &mut outputs)?;
    assert!(rt; contents.looks == 1 && contents.header.size == 10 && contents.header.gates == 4);
    assert!(rt;
        contents.owners == [0, 1].as_slice() && contents.rows == [9, 8, 7, 6, 5, 4, 3, 2].as_slice()
    );
    assert!(rt; contents.tables == [0, 1, 4, 9, 6, 5, 6, 9, 4, 1].as_slice());
    let look = Gate {
        kind: Kind::Look,
        first: 4,
        second: 0,
    };
    assert!(rt; gates[0].second == 1 && gates[3] == look && gates[4] == MARK && gates[5] == MARK);
    assert!(rt; outputs == [5, 2, 99, 99]);
    Ok(())
}

#[test]
fn kinds(rt: HostRuntime) -> Result<(), Fail> {
    let kinds = [Kind::Add, Kind::Shift, Kind::Map, Kind::Look];
    for (byte, kind) in (0..4u8).zip(kinds) {
        assert_eq!(rt; Kind::try_from(byte), Ok(kind));
    }
    assert_eq!(rt; Kind::try_from(4u8), Err(UnknownKind(4)));
    assert_eq!(rt; Kind::Look.to_string(rt.alloc())?.as_str(), "LOOK");
    assert_eq!(rt;
        UnknownKind(4).to_string(rt.alloc())?.as_str(),
        "no kind of gate has the number 4"
    );
    Ok(())
}
