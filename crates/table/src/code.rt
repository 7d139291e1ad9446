//! What a table of coefficients means as a code.
ghost use Rattle.table.specs.Table.{table_shape, table_coefficients};
ghost use Rattle.table.specs.Bounded.{table_bounded};

use crate::coefficients::CoefficientTable;
use arithmetic::sum::Sum;
use byte::Byte;
use codes::code::Code;

impl Code<Byte> for CoefficientTable {
    ghost shape = { λ t. table_shape t.sources t.parities t.memory };

    ghost coefficients = { λ t.
        table_coefficients (table_shape t.sources t.parities t.memory) t.bytes.items };

    ghost bounded = { λ t.
        table_bounded (table_shape t.sources t.parities t.memory) t.bytes.items };

    fn sources(&self) -> u32 {
        self.sources.value()
    }

    fn parities(&self) -> u32 {
        self.parities.value()
    }

    fn memory(&self) -> u32 {
        self.memory.value()
    }

    fn coefficient(&self, parity: u32, age: u32, sub: u32) -> Byte {
        let sources = self.sources.value();
        let memory = self.memory.value();
        if parity < self.parities.value() && age <= memory && sub < sources {
            let place = (parity * (memory + 1) + age) * sources + sub;
            Byte::new(self.bytes[place as usize])
        } else {
            Byte::zero()
        }
    }
}
