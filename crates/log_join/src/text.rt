ghost use Rattle.std.specs.Prelude.{◌≡◌, ◌++◌, ◌≤◌, ◌∷◌, [], length, min, decimal, IfOk, OnOk};
ghost use Rattle.std.specs.List.{flat_map};
ghost use Rattle.log_join.specs.Entries.{entry_text};

use crate::entry::Entry;
use cs_base::decimal;
use cs_base::items::Octets;
use cs_base::no_memory::NoMemory;
use cs_base::time::Time;
use device_api::Line;
use std::alloc::Global;

const TEN_DIGITS: u64 = 10_000_000_000;

/// The texts of entries, one after another.
pub(crate) fn text_of(alloc: Global, entries: &[Entry<'_>]) -> Result<Octets, NoMemory>
    ensures { IfOk result (λ text. text ≡ flat_map entry_text entries.now) }
{
    let mut text = Octets::from_vec(Vec::with_capacity(alloc, room_for(entries))?);
    for entry in entries {
        write(*entry, &mut text)?;
    }
    Ok(text)
}

fn most_digits(at: Time) -> usize
    ensures { length (decimal at) ≤ result }
{
    if at.picoseconds() < TEN_DIGITS {
        10
    } else {
        20
    }
}

/// No fewer bytes than an entry's text has, as far as a `usize` reaches.
pub(crate) fn room_of(entry: Entry<'_>) -> usize
    ensures { min (length (entry_text entry.entry)) usize.MAX ≤ result }
{
    most_digits(entry.line.at)
        .saturating_add(entry.name.as_slice().len())
        .saturating_add(entry.line.text.len())
        .saturating_add(b"  \n".len())
}

fn room_for(entries: &[Entry<'_>]) -> usize
    ensures { min (length (flat_map entry_text entries.now)) usize.MAX ≤ result }
{
    let mut room = 0usize;
    for entry in entries {
        room = room.saturating_add(room_of(*entry));
    }
    room
}

pub(crate) fn write(entry: Entry<'_>, text: &mut Octets) -> Result<(), NoMemory>
    ensures { OnOk result (text.new ≡ text.old ++ entry_text entry.entry) }
{
    decimal(entry.line.at.picoseconds(), text)?;
    text.push(b' ')?;
    text.append(entry.name.as_slice())?;
    text.push(b' ')?;
    text.append(entry.line.text.as_slice())?;
    text.push(b'\n')
}

/// Writes a line whose time's digits, and whose component's name between spaces, stand ready.
pub(crate) fn write_pieces(
    digits: &[u8],
    name: &[u8],
    line: &Line,
    text: &mut Octets,
) -> Result<(), NoMemory>
    ensures { OnOk result
        (text.new ≡ text.old ++ digits.now ++ name.now ++ line.now.text ++ 10 ∷ []) }
{
    text.append(digits)?;
    text.append(name)?;
    text.append(line.text.as_slice())?;
    text.push(b'\n')
}
