// GROUP, and groups by their values.
use groups::Kind;
use groups::bitwise::Xor;
use groups::choice::group;
use groups::masks::MaskGroup;
use groups::modular::Mod;
use refusals::Refusal;
use std::test::Fail;

#[test]
fn words_and_sizes(rt: HostRuntime) {
    let refused = Err(Refusal::Group);
    let xor = Ok(Kind::Xor);
    let modulo = Ok(Kind::Mod);
    assert!(rt;
        group("xor", 10) == refused && group("xor", 0) == refused && group("xor", 1) == refused
    );
    assert!(rt; group("xor", 512) == refused && group("xor", 2) == xor && group("xor", 256) == xor);
    assert!(rt;
        group("mod", 1) == refused && group("mod", 257) == refused && group("mod", 65538) == refused
    );
    assert!(rt;
        group("mod", 2) == modulo && group("mod", 10) == modulo && group("mod", 256) == modulo
    );
    assert!(rt;
        group("", 2) == refused && group("Xor", 2) == refused && group("mod ", 2) == refused
    );
    assert!(rt; Kind::Xor.number() == 1 && Kind::Mod.number() == 2 && Refusal::Group.number() == 8);
}

#[test]
fn modulo_ten(rt: HostRuntime) -> Result<(), Fail> {
    let g = Mod::new(10)?;
    assert!(rt; g.size() == 10 && g.generators() == 1);
    assert!(rt; g.negate(4) == 6 && g.negate(0) == 0 && g.add(7, 6) == 3 && g.subtract(1, 4) == 7);
    assert!(rt; g.image(&[9, 1, 1, 1, 1, 1, 1, 1], 3) == 7);
    Ok(())
}

#[test]
fn bytes(rt: HostRuntime) -> Result<(), Fail> {
    let g = Xor::new(256)?;
    let doubling = [2, 4, 8, 16, 32, 64, 128, 27];
    assert!(rt; g.size() == 256 && g.generators() == 8 && g.negate(7) == 7);
    assert!(rt; g.image(&doubling, 87) == 174 && g.image(&doubling, 174) == 71);
    // four codes have two generators, and the images past the second are not read
    let small = Xor::new(4)?;
    assert!(rt; small.generators() == 2 && small.image(&[1, 2, 3, 3, 3, 3, 3, 3], 3) == 3);
    Ok(())
}
