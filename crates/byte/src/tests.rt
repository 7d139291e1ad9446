//! Worked examples by hand; the crate `byte_products` compares all products and inverses with another library's.
use crate::element::Byte;
use crate::symbol::ByteSymbol;
use crate::whole::ByteArithmetic;
use arithmetic::arithmetic::Arithmetic;
use arithmetic::field::Field;
use arithmetic::sum::Sum;
use std::test::Fail;

#[test]
fn products(rt: HostRuntime) {
    let two = Byte::new(2);
    assert_eq!(rt; two.times(Byte::new(128)).value(), 29);
    assert_eq!(rt; two.times(Byte::new(142)).value(), 1);
}

#[test]
fn inverses(rt: HostRuntime) -> Result<(), Fail> {
    assert!(rt; Byte::zero().inverse().is_none());
    match Byte::new(2).inverse() {
        Some(inverse) => {
            assert_eq!(rt; inverse.value(), 142);
            Ok(())
        },
        None => Err(Fail::new("2 has no inverse")),
    }
}

#[test]
fn scaling(rt: HostRuntime) {
    let scaled = ByteArithmetic::scale(Byte::new(2), ByteSymbol::new(128));
    assert_eq!(rt; scaled.value(), 29);
}

#[test]
fn strings(rt: HostRuntime) {
    let seven = ByteArithmetic::from_bytes([7, 1, 2, 3]);
    assert!(rt; seven.same(ByteSymbol::new(7)));
    let four = ByteArithmetic::to_bytes(seven.plus(ByteSymbol::new(3)));
    assert!(rt; four[0] == 4);
}
