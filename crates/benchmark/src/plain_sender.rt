//! A sender as plain loops, over a list of the coefficients that are not zero.
use crate::plain::Plain;
use crate::plain_solver::copy;

/// A coefficient that is not zero: what it scales and where that goes, as places of symbols.
#[derive(Clone, Copy)]
pub(crate) struct Term {
    pub(crate) coefficient: u8,
    // In the history and the packet behind it.
    pub(crate) from: usize,
    // In the block.
    pub(crate) to: usize,
}

/// Writes the packet and its parities to `block`; `recent`, the history with room for one packet
/// behind it, takes the packet in.
pub(crate) fn send<S: Plain>(
    terms: &[Term],
    symbols: usize,
    packet: &[S],
    recent: &mut [S],
    block: &mut [S],
) {
    let history = recent.len().saturating_sub(packet.len());
    if let Some(behind) = recent.get_mut(history..) {
        copy(behind, packet);
    }
    copy(block, packet);
    if let Some(parities) = block.get_mut(packet.len()..) {
        for x in parities {
            *x = S::zero();
        }
    }
    for term in terms {
        let parity = block.get_mut(term.to..term.to.saturating_add(symbols));
        let row = recent.get(term.from..term.from.saturating_add(symbols));
        if let (Some(parity), Some(row)) = (parity, row) {
            for (to, x) in parity.iter_mut().zip(row) {
                *to = to.plus_scaled(term.coefficient, *x);
            }
        }
    }
    if packet.len() <= recent.len() {
        recent.copy_within(packet.len().., 0);
    }
}
