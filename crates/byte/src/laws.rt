//! What byte arithmetic is, in numbers.
ghost use Rattle.byte.specs.Numbers.{ByteNumbers};

use crate::whole::ByteArithmetic;
use arithmetic::arithmetic::Arithmetic;

/// Promises what byte arithmetic makes of the values of bytes: what is the value of a sum, of a product and of a symbol that is
/// scaled, and how a symbol is written. It does nothing.
pub fn bytes_are_numbers()
    ensures { let B = ⟦<ByteArithmetic as Arithmetic>⟧ in ByteNumbers B.operations B.bytes }
{}
