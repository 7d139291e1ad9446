//! Tables of coefficients, and their making.
ghost use Rattle.std.specs.Prelude.{◌≡◌, ◌≤◌, ◌+◌, ◌*◌, IfOk, vec_len};
ghost use Rattle.refusal.specs.Order.{refused_with};
ghost use Rattle.table.specs.Table.{table_shape, table_refusal};
ghost use Rattle.table.specs.WrittenOut.{written_out};

use byte::Byte;
use codes::code::Code;
use codes::limits::{Parities, Ranged, Sources};
use refusal::Refusal;

/// How many slots back a table may reach, M.
pub type Memory = Ranged<0, 63>;

// The limits are said beside the numbers too, since whoever is handed a table cannot look into them.
/// A code whose coefficients were handed in, byte by byte. It owns its bytes.
#[derive(Drop)]
pub struct CoefficientTable {
    pub(crate) sources: Sources,
    pub(crate) parities: Parities,
    pub(crate) memory: Memory,
    pub(crate) bytes: Vec<u8>,
    ghost narrow: { (1 ≤ sources) × (sources ≤ 8) },
    ghost few: { (1 ≤ parities) × (parities ≤ 4) },
    ghost near: { memory ≤ 63 },
    ghost whole: { vec_len bytes ≡ parities * (memory + 1) * sources },
}

impl CoefficientTable {
    /// The code whose coefficients these bytes are, parity by parity, in each age by age, in each sub-symbol by sub-symbol: the
    /// byte at (j * (M + 1) + a) * K + k is what parity j scales sub-symbol k of the packet a slots ago by. Refuses K outside 1
    /// to 8, P outside 1 to 4 and M outside 0 to 63 (1), and another number of bytes than P * (M + 1) * K (4); the bytes are then
    /// let go.
    pub fn new(
        sources: u32,
        parities: u32,
        memory: u32,
        bytes: Vec<u8>,
    ) -> Result<CoefficientTable, Refusal>
        ensures refusal { refused_with result
            ≡ table_refusal (table_shape sources parities memory) (vec_len bytes) }
        ensures made { IfOk result (λ t. (t.sources ≡ sources) × (t.parities ≡ parities)
            × (t.memory ≡ memory) × (t.bytes.items ≡ bytes.items)) }
        ensures written { let C = ⟦<CoefficientTable as Code<Byte>>⟧ in
            IfOk result (λ t. written_out (C.shape t) (C.coefficients t) ≡ bytes.items) }
    {
        let sources = Sources::new(sources)?;
        let parities = Parities::new(parities)?;
        let memory = Memory::new(memory)?;
        let rows = parities.value() * (memory.value() + 1);
        if bytes.len() != (rows * sources.value()) as usize {
            return Err(Refusal::OtherLength);
        }
        Ok(CoefficientTable {
            sources,
            parities,
            memory,
            bytes,
        })
    }
}
