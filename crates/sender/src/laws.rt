//! What holds of any sends, one after the other.
ghost use Rattle.std.specs.Prelude.{ℕ, List};
ghost use Rattle.codes.specs.Link.{link_of};
ghost use Rattle.sender.specs.State.{SenderState};
ghost use Rattle.sender.specs.Runs.{Run, Sent, SentByStream};

use arithmetic::arithmetic::Arithmetic;
use codes::code::Code;

/// Promises, for every code and every arithmetic, that after any sends since the making, accepted or refused, what was sent is what
/// the stream of the packets that were handed in sends, slot by slot. It does nothing.
pub fn sent_by_a_stream<A: Arithmetic, C: Code<A::Coef>>()
    ensures { let link = link_of A.operations C.shape C.coefficients in
        (code : C) (l : ℕ) (sends : List (Sent A.Sym))
        (sender : SenderState C) (history : List A.Sym)
        → Run link code l sends sender history → SentByStream (link code l) sends sender.next }
{}
