//! How a run ends that a refusal breaks off.
ghost use Rattle.std.specs.Prelude.{◌≡◌, [], ◌∷◌, ◌++◌, IfOk, string_bytes};
ghost use Rattle.linktext.specs.Lines.{text_of_refusal};
ghost use Rattle.transcript.specs.Steps.{Ends};

use hextext::error::ReadError;
use linktext::lines::refusal_text;
use refusal::Refusal;
use std::alloc::{AllocError, Global};

// What was shown, and behind it why this line was refused. Two arguments: a struct of both would be made for one call and taken apart in it.
pub(crate) fn with_refusal(
    heap: Global,
    mut out: String,
    why: Refusal,
    number: u64,
) -> Result<String, AllocError>
    ensures { let line = text_of_refusal why number ++ (10 ∷ []) in
        IfOk result (λ s. string_bytes s ≡ string_bytes out ++ line) }
{
    let words = refusal_text(heap, why, number)?;
    writeln!(out, "{words}")?;
    Ok(out)
}

// The same of a line that was not read; where memory ran out, there is no text.
pub(crate) fn end_run(
    heap: Global,
    out: String,
    error: ReadError,
    number: u64,
) -> Result<String, AllocError>
    ensures { IfOk result (λ s. Ends error number (string_bytes out) (string_bytes s)) }
{
    match error {
        ReadError::Refused(why) => with_refusal(heap, out, why, number),
        ReadError::NoMemory => Err(AllocError),
    }
}
