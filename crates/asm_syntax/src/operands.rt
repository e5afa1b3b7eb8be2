//! The words of a statement, and the punctuation between them. Blanks may stand before each part.
ghost use Rattle.std.specs.Prelude.{◌≡◌};
ghost use Rattle.asm_syntax.specs.Bytes.{behind};
ghost use Rattle.asm_syntax.specs.Faults.{Gives};
ghost use Rattle.asm_syntax.specs.Operands.{word_at, after_mark, nothing, one, two, three, in_parentheses, based};

use crate::class::Class;
use crate::line::LineBad;

fn skip_blanks(bytes: &[u8]) -> &[u8]
    ensures { result.now ≡ behind Class.Blank bytes.now }
{
    let (_, rest) = Class::Blank.split(bytes);
    rest
}

/// The word at the beginning, and what follows it.
#[tactic(auto, unfolding(crate::specs::Operands::word_at))]
pub(crate) fn word_at(bytes: &[u8]) -> Result<(&[u8], &[u8]), LineBad>
    ensures { Gives (λ x. (x.0.now, x.1.now)) result (word_at bytes.now) }
{
    let (word, rest) = Class::Word.split(skip_blanks(bytes));
    if word.is_empty() {
        return Err(LineBad::BadLine);
    }
    Ok((word, rest))
}

#[tactic(auto, unfolding(crate::specs::Operands::after_mark))]
fn after_mark(mark: u8, bytes: &[u8]) -> Result<&[u8], LineBad>
    ensures { Gives (λ rest. rest.now) result (after_mark mark bytes.now) }
{
    match skip_blanks(bytes).split_first() {
        Some((byte, rest)) if *byte == mark => Ok(rest),
        _ => Err(LineBad::BadLine),
    }
}

/// Where nothing else stands.
#[tactic(auto, unfolding(crate::specs::Operands::nothing))]
pub(crate) fn nothing(bytes: &[u8]) -> Result<(), LineBad>
    ensures { Gives (λ x. x) result (nothing bytes.now) }
{
    if skip_blanks(bytes).is_empty() {
        Ok(())
    } else {
        Err(LineBad::BadLine)
    }
}

/// The word of `a`.
#[tactic(auto, unfolding(crate::specs::Operands::one))]
pub(crate) fn one(bytes: &[u8]) -> Result<&[u8], LineBad>
    ensures { Gives (λ x. x.now) result (one bytes.now) }
{
    let (a, rest) = word_at(bytes)?;
    nothing(rest)?;
    Ok(a)
}

/// The words of `a, b`.
#[tactic(auto, unfolding(crate::specs::Operands::two))]
pub(crate) fn two(bytes: &[u8]) -> Result<(&[u8], &[u8]), LineBad>
    ensures { Gives (λ x. (x.0.now, x.1.now)) result (two bytes.now) }
{
    let (a, rest) = word_at(bytes)?;
    let b = one(after_mark(b',', rest)?)?;
    Ok((a, b))
}

/// The words of `a, b, c`.
#[tactic(auto, unfolding(crate::specs::Operands::three))]
pub(crate) fn three(bytes: &[u8]) -> Result<(&[u8], &[u8], &[u8]), LineBad>
    ensures { Gives (λ x. (x.0.now, x.1.now, x.2.now)) result (three bytes.now) }
{
    let (a, rest) = word_at(bytes)?;
    let (b, c) = two(after_mark(b',', rest)?)?;
    Ok((a, b, c))
}

/// The word of `(a)`.
#[tactic(auto, unfolding(crate::specs::Operands::in_parentheses))]
fn in_parentheses(bytes: &[u8]) -> Result<&[u8], LineBad>
    ensures { Gives (λ x. x.now) result (in_parentheses bytes.now) }
{
    let (a, rest) = word_at(after_mark(b'(', bytes)?)?;
    nothing(after_mark(b')', rest)?)?;
    Ok(a)
}

/// The words of `a, b(c)`.
#[tactic(auto, unfolding(crate::specs::Operands::based))]
pub(crate) fn based(bytes: &[u8]) -> Result<(&[u8], &[u8], &[u8]), LineBad>
    ensures { Gives (λ x. (x.0.now, x.1.now, x.2.now)) result (based bytes.now) }
{
    let (a, rest) = word_at(bytes)?;
    let (b, rest) = word_at(after_mark(b',', rest)?)?;
    let c = in_parentheses(rest)?;
    Ok((a, b, c))
}
