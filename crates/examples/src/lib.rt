//! Worked examples of what the definitions say that contracts name, which the checker computes.
#![tactic(auto)]

ghost use Rattle.examples.specs.Examples.{Examples};

/// Promises the worked examples: of streams, coefficient tables, overlays, spreads, symbols as bytes, frames, refusals, a run
/// of sends, losses that plans allow or not, and packets that are known in time or not yet. It does nothing.
pub fn worked_examples()
    ensures { Examples }
{}
