// Refusals: their numbers, their figures, and how they print.
use refusals::Refusal;
use std::test::Fail;

const ALL: [(Refusal, u8, Option<usize>, &str); 12] = [
    (
        Refusal::Layout(53),
        1,
        Some(53),
        "refused 1 at 53: the file is too short, or a pair of its directory is bad",
    ),
    (
        Refusal::Limit(2),
        2,
        Some(2),
        "refused 2 at 2: a count or the number of LOOK gates is outside its limits",
    ),
    (
        Refusal::Places(6),
        3,
        Some(6),
        "refused 3 at 6: too few places were supplied",
    ),
    (
        Refusal::Kind(78),
        4,
        Some(78),
        "refused 4 at 78: no such kind of gate",
    ),
    (
        Refusal::Operand(79),
        5,
        Some(79),
        "refused 5 at 79: an operand that is no earlier wire, row or table",
    ),
    (
        Refusal::Code(58),
        6,
        Some(58),
        "refused 6 at 58: a table, row or SHIFT number that is no code",
    ),
    (
        Refusal::Absent(99),
        7,
        Some(99),
        "refused 7 at 99: no such owner or output wire",
    ),
    (Refusal::Group, 8, None, "refused 8: no such group"),
    (
        Refusal::Counts,
        9,
        None,
        "refused 9: the group's size is not the circuit's",
    ),
    (Refusal::Party, 10, None, "refused 10: no such party"),
    (
        Refusal::Length,
        15,
        None,
        "refused 15: a list or a buffer of the wrong length",
    ),
    (
        Refusal::NotCode,
        16,
        None,
        "refused 16: a number that is no code",
    ),
];

#[test]
fn numbers_and_texts(rt: HostRuntime) -> Result<(), Fail> {
    for (refusal, number, figure, text) in ALL {
        assert!(rt; refusal.number() == number && refusal.figure() == figure);
        let printed = refusal.to_string(rt.alloc())?;
        assert_eq!(rt; printed.as_str(), text);
    }
    Ok(())
}
