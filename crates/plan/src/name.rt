//! The names of the arithmetics, as they are printed.
ghost use Rattle.std.specs.Prelude.{Some};
ghost use Rattle.plan.specs.Names.{text_of_name};

use crate::card::ArithmeticName;
use std::fmt;

// `word` or `byte`.
impl fmt::Display for ArithmeticName {
    ghost output = { λ name. Some (text_of_name name) };

    fn fmt<W: fmt::Write>(&self, f: &mut fmt::Formatter<W>) -> fmt::Result {
        match self {
            ArithmeticName::Word => write!(f, "word"),
            ArithmeticName::Byte => write!(f, "byte"),
        }
    }
}
