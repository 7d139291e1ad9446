//! The first line of a link's text: its plan.
ghost use Rattle.std.specs.Prelude.{◌≡◌, false, not, IfOk, MatchOption};
ghost use Rattle.refusal.specs.Order.{refused, accepted, refused_with};
ghost use Rattle.linktext.specs.Fields.{front, back, is_number, read_on};
ghost use Rattle.linktext.specs.PlanLine.{plan_line_refusal, letter_text, is_letter, Says};

use crate::fields::{cut, number};
use plan::{ArithmeticName, Plan};
use refusal::Refusal;

/// No line is longer than this many bytes.
pub const LONGEST_LINE: usize = 2050;

// The arithmetic that a letter names.
fn named(letter: &[u8]) -> Option<ArithmeticName>
    ensures { MatchOption result (is_letter letter.now ≡ false) (λ a. letter_text a ≡ letter.now) }
{
    let [letter] = letter else { return None };
    match char::from(*letter) {
        'W' => Some(ArithmeticName::Word),
        'F' => Some(ArithmeticName::Byte),
        _ => None,
    }
}

// The number that a line begins with, and what stands behind its blank.
fn field(line: &[u8]) -> Result<(u32, &[u8]), Refusal>
    ensures value { IfOk result (λ f. f.0 ≡ read_on 0 (front line.now)) }
    ensures rest { IfOk result (λ f. f.1.now ≡ back line.now) }
    ensures refusal { refused_with result
        ≡ refused (not (is_number (front line.now))) 10 accepted }
{
    let (digits, rest) = cut(line, b' ');
    let value = number(digits).ok_or(Refusal::BrokenLine)?;
    Ok((value, rest))
}

/// The plan that the first line of a link's text hands in: `B m α L` in decimal, and W or F. Refuses a line that breaks this
/// form or is too long (10), and then a number outside its limits (1).
pub fn read_plan(line: &[u8]) -> Result<Plan, Refusal>
    ensures refusal { refused_with result ≡ plan_line_refusal line.now }
    ensures made { IfOk result (λ p. Says line.now p) }
{
    if line.len() > LONGEST_LINE {
        return Err(Refusal::BrokenLine);
    }
    let (burst, rest) = field(line)?;
    let (width, rest) = field(rest)?;
    let (stretch, rest) = field(rest)?;
    let (symbols, letter) = field(rest)?;
    let arithmetic = named(letter).ok_or(Refusal::BrokenLine)?;
    Plan::new(burst, width, stretch, symbols, arithmetic)
}
