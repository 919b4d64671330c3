// What the operations give, by Python's whole numbers.

use crate::{Op1, Op2, Word};

fn applied(op: Op2, width: u8, x: u128, y: u128) -> Option<u128> {
    let left = Word::new(width, x)?;
    let right = Word::new(width, y)?;
    Some(left.apply2(op, right).value())
}

#[test]
fn operations_on_two_words(rt: HostRuntime) {
    let cases = [
        (
            Op2::Mul,
            128,
            0xffffffffffffffffffffffffffffffff,
            0xffffffffffffffffffffffffffffffff,
            0x1,
        ),
        (
            Op2::Mul,
            128,
            0x123456789abcdef0fedcba9876543210,
            0xdeadbeefcafebabe0123456789abcdef,
            0x6e1bd1a5075ef1322236d88fe5618cf0,
        ),
        (
            Op2::Mul,
            128,
            0xdeadbeefcafebabe0123456789abcdef,
            0x10000000000000001,
            0xdfd1045754aa88ad0123456789abcdef,
        ),
        (
            Op2::Mul,
            128,
            0x7fffffffffffffffffffffffffffffff,
            0x3,
            0x7ffffffffffffffffffffffffffffffd,
        ),
        (
            Op2::DivU,
            128,
            0xdeadbeefcafebabe0123456789abcdef,
            0x10000000000000001,
            0xdeadbeefcafebabd,
        ),
        (
            Op2::DivU,
            128,
            0xdeadbeefcafebabe0123456789abcdef,
            0x123456789abcdef0fedcba9876543210,
            0xc,
        ),
        (
            Op2::DivU,
            128,
            0x7fffffffffffffffffffffffffffffff,
            0x3,
            0x2aaaaaaaaaaaaaaaaaaaaaaaaaaaaaaa,
        ),
        (
            Op2::DivS,
            128,
            0xffffffffffffffffffffffffffffffff,
            0xffffffffffffffffffffffffffffffff,
            0x1,
        ),
        (
            Op2::DivS,
            128,
            0x80000000000000000000000000000000,
            0xffffffffffffffffffffffffffffffff,
            0x80000000000000000000000000000000,
        ),
        (
            Op2::DivS,
            128,
            0xdeadbeefcafebabe0123456789abcdef,
            0x10000000000000001,
            0xffffffffffffffffdeadbeefcafebabf,
        ),
        (
            Op2::DivS,
            128,
            0xdeadbeefcafebabe0123456789abcdef,
            0x123456789abcdef0fedcba9876543210,
            0xffffffffffffffffffffffffffffffff,
        ),
        (
            Op2::DivS,
            128,
            0x7fffffffffffffffffffffffffffffff,
            0x3,
            0x2aaaaaaaaaaaaaaaaaaaaaaaaaaaaaaa,
        ),
        (
            Op2::DivS,
            128,
            0x80000000000000000000000000000000,
            0x3,
            0xd5555555555555555555555555555556,
        ),
        (
            Op2::RemU,
            128,
            0xdeadbeefcafebabe0123456789abcdef,
            0x10000000000000001,
            0x22758677bead1332,
        ),
        (
            Op2::RemU,
            128,
            0xdeadbeefcafebabe0123456789abcdef,
            0x123456789abcdef0fedcba9876543210,
            0x439b1488a2447720eca8641fdb9752f,
        ),
        (Op2::RemU, 128, 0x7fffffffffffffffffffffffffffffff, 0x3, 0x1),
        (
            Op2::RemS,
            128,
            0x80000000000000000000000000000000,
            0xffffffffffffffffffffffffffffffff,
            0x0,
        ),
        (
            Op2::RemS,
            128,
            0xdeadbeefcafebabe0123456789abcdef,
            0x10000000000000001,
            0xffffffffffffffff22758677bead1330,
        ),
        (
            Op2::RemS,
            128,
            0xdeadbeefcafebabe0123456789abcdef,
            0x123456789abcdef0fedcba9876543210,
            0xf0e2156865bb99aeffffffffffffffff,
        ),
        (Op2::RemS, 128, 0x7fffffffffffffffffffffffffffffff, 0x3, 0x1),
        (
            Op2::RemS,
            128,
            0x80000000000000000000000000000000,
            0x3,
            0xfffffffffffffffffffffffffffffffe,
        ),
        (
            Op2::Add,
            128,
            0xffffffffffffffffffffffffffffffff,
            0x80000000000000000000000000000000,
            0x7fffffffffffffffffffffffffffffff,
        ),
        (
            Op2::Sub,
            128,
            0xffffffffffffffffffffffffffffffff,
            0x80000000000000000000000000000000,
            0x7fffffffffffffffffffffffffffffff,
        ),
        (
            Op2::Eq,
            128,
            0xffffffffffffffffffffffffffffffff,
            0x80000000000000000000000000000000,
            0x0,
        ),
        (
            Op2::LtU,
            128,
            0xffffffffffffffffffffffffffffffff,
            0x80000000000000000000000000000000,
            0x0,
        ),
        (
            Op2::LtS,
            128,
            0xffffffffffffffffffffffffffffffff,
            0x80000000000000000000000000000000,
            0x0,
        ),
        (Op2::Shl, 128, 0x123456789abcdef0fedcba9876543210, 0x7f, 0x0),
        (Op2::Shl, 128, 0x123456789abcdef0fedcba9876543210, 0x80, 0x0),
        (
            Op2::ShrU,
            128,
            0xdeadbeefcafebabe0123456789abcdef,
            0x7f,
            0x1,
        ),
        (
            Op2::ShrS,
            128,
            0xdeadbeefcafebabe0123456789abcdef,
            0x7f,
            0xffffffffffffffffffffffffffffffff,
        ),
        (
            Op2::ShrS,
            128,
            0xdeadbeefcafebabe0123456789abcdef,
            0xffffffffffffffffffffffffffffffff,
            0xffffffffffffffffffffffffffffffff,
        ),
        (Op2::Shl, 8, 0xff, 0x9, 0x0),
        (Op2::Shl, 1, 0x1, 0x1, 0x0),
        (Op2::Add, 4, 0xf, 0x1, 0x0),
        (Op2::DivS, 4, 0xf, 0x1, 0xf),
        (Op2::LtS, 4, 0xf, 0x1, 0x1),
        (Op2::ShrS, 4, 0x8, 0x2, 0xe),
        (Op2::RemU, 4, 0xf, 0x0, 0x0),
        (Op2::RemS, 4, 0x9, 0x2, 0xf),
        (Op2::RemS, 4, 0x7, 0xe, 0x1),
        (Op2::DivS, 4, 0x8, 0xf, 0x8),
    ];
    for (op, width, x, y, want) in cases {
        assert_eq!(rt;
            applied(op, width, x, y),
            Some(want),
            "{op:?} at {width}: {x}, {y}"
        );
    }
}

#[test]
fn words_and_their_parts(rt: HostRuntime) {
    assert_eq!(rt; Word::new(129, 0), None);
    assert_eq!(rt; Word::new(0, 0), None);
    assert_eq!(rt; Word::new(4, 16), None);
    let least = Word::from_low_bits(128, 1 << 127);
    assert_eq!(rt; least.width(), 128);
    assert_eq!(rt; least.to_signed(), i128::MIN);
    assert_eq!(rt; Word::from_low_bits(4, 250).to_signed(), -6);
    assert_eq!(rt; Word::from_low_bits(4, 10).resize(8, true).value(), 250);
    assert_eq!(rt; Word::from_low_bits(4, 10).resize(8, false).value(), 10);
    assert_eq!(rt; least.slice(127, 124).value(), 8);
    assert_eq!(rt;
        Word::from_low_bits(64, 1)
            .join(Word::from_low_bits(64, 5))
            .value(),
        (1 << 64) + 5
    );
}

#[test]
fn operations_on_one_word(rt: HostRuntime) {
    let cases = [
        (Op1::Not, 4, 5, 10),
        (Op1::Neg, 128, 1, u128::MAX),
        (Op1::Neg, 4, 0, 0),
        (Op1::RedAnd, 128, u128::MAX, 1),
        (Op1::RedAnd, 4, 7, 0),
        (Op1::RedOr, 4, 0, 0),
        (Op1::RedXor, 8, 7, 1),
        (Op1::RedXor, 128, u128::MAX, 0),
    ];
    for (op, width, x, want) in cases {
        let word = Word::new(width, x);
        assert_eq!(rt;
            word.map(|a| a.apply1(op).value()),
            Some(want),
            "{op:?} at {width}: {x}"
        );
    }
}
