//! The packet of a line.
ghost use Rattle.transcript.specs.Lines.{LineReads};

use arithmetic::arithmetic::Arithmetic;
use codes::link::LAST_SLOT;
use hextext::error::ReadError;
use hextext::read::read_packet;
use linktext::plan_line::LONGEST_LINE;
use refusal::Refusal;
use std::alloc::Global;

/// The packet that a line hands in for this slot, of so many symbols: it knows no sender that could tell. Refuses a line that breaks
/// its form (10), then a slot behind the last one of a link (1), and then a packet of another length (4).
pub fn read_line<A: Arithmetic>(
    heap: Global,
    line: &[u8],
    slot: u32,
    size: usize,
) -> Result<Vec<A::Sym>, ReadError>
    ensures { LineReads A.bytes size slot line.now result }
{
    if line.len() > LONGEST_LINE {
        return Err(Refusal::BrokenLine.into());
    }
    // Tried with `?` in a last arm: where the arms meet the proof does not know what was read, and did not close (`returns`).
    let packet = match read_packet::<A>(heap, line) {
        Ok(packet) => packet,
        // The slot's limit comes before the packet's length.
        Err(ReadError::Refused(Refusal::OtherLength)) if slot > LAST_SLOT => {
            return Err(Refusal::OutsideLimits.into());
        }
        Err(e) => return Err(e),
    };
    if slot > LAST_SLOT {
        return Err(Refusal::OutsideLimits.into());
    }
    if packet.len() != size {
        return Err(Refusal::OtherLength.into());
    }
    Ok(packet)
}
