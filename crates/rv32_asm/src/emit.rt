ghost use Rattle.std.specs.Prelude.{◌≡◌, ◌++◌, OnOk, replicate, ◌%◌, ◌^◌};
ghost use Rattle.rv32_asm.specs.Assembled.{line_bytes};
ghost use Rattle.rv32_asm.specs.LabelMap.{place_in};
ghost use Rattle.rv32_asm.specs.Meaning.{bytes_of};
ghost use Rattle.rv32_asm.specs.WordsSeen.{seen, bytes_of_words, word_bytes};

use crate::labels::Labels;
use crate::placed::Placed;
use crate::words::{Words, low_word, words_of};
use asm_syntax::Statement;
use cs_base::{NoMemory, Octets};

/// Appends the bytes of a line that has no fault.
pub(crate) fn append_line(line: &Placed, labels: &Labels, out: &mut Octets) -> Result<(), NoMemory>
    ensures { OnOk result (out.new ≡ out.old ++ line_bytes (place_in labels.now) line.now) }
{
    match &line.content {
        Ok(Some(statement)) => append_statement(line.address, statement, labels, out),
        Ok(None) | Err(_) => Ok(()),
    }
}

fn append_statement(
    at: u128,
    statement: &Statement,
    labels: &Labels,
    out: &mut Octets,
) -> Result<(), NoMemory>
    ensures { OnOk result (out.new ≡ out.old ++ bytes_of (place_in labels.now) at statement.now) }
{
    match statement {
        Statement::Word(value) => append_word(Some(low_word(*value)), out),
        Statement::WordOf(to) => append_word(labels.place(to.as_slice()).map(low_bits), out),
        Statement::Byte(value) => out.push((low_word(*value) & 0xFF) as u8),
        Statement::Space(count) => append_zeros(*count, out),
        _ => append_words(words_of(labels, at, statement), out),
    }
}

fn append_words(words: Words, out: &mut Octets) -> Result<(), NoMemory>
    ensures { OnOk result (out.new ≡ out.old ++ bytes_of_words (seen words)) }
{
    match words {
        Words::Zero => Ok(()),
        Words::One(word) => append_word(word, out),
        Words::Two(first, second) => {
            append_word(first, out)?;
            append_word(second, out)
        }
    }
}

// A word stands with its low byte first.
fn append_word(word: Option<u32>, out: &mut Octets) -> Result<(), NoMemory>
    ensures { OnOk result (out.new ≡ out.old ++ word_bytes word) }
{
    match word {
        Some(word) => out.append(&word.to_le_bytes()),
        None => Ok(()),
    }
}

fn append_zeros(count: u32, out: &mut Octets) -> Result<(), NoMemory>
    ensures { OnOk result (out.new ≡ out.old ++ replicate count 0) }
{
    for _ in 0..count {
        out.push(0)?;
    }
    Ok(())
}

// The low 32 bits of an address.
fn low_bits(address: u128) -> u32
    ensures { result ≡ address % 2 ^ 32 }
{
    (address & 0xFFFF_FFFF) as u32
}
