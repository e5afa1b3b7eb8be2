ghost use Rattle.std.specs.Prelude.{◌≡◌, ◌≤◌, ◌<◌, ◌+◌, ◌*◌, ◌++◌, All, length, IfOk, OnOk};
ghost use Rattle.channel_stats.specs.Statistics.{channel_line, link_lines, statistics, IsNamed};

use cs_base::{Link, Name, NoMemory, Octets, decimal};
use device_api::Count;
use std::alloc::Global;

/// Appends the line about one channel.
fn channel_line(
    number: u64,
    from: &Name,
    to: &Name,
    count: &Count,
    text: &mut Octets,
) -> Result<(), NoMemory>
    ensures { OnOk result (text.new ≡ text.old ++ channel_line number from.now to.now count.now) }
{
    text.append(b"channel ")?;
    decimal(number, text)?;
    text.append(b" ")?;
    text.append(from.as_slice())?;
    text.append(b" ")?;
    text.append(to.as_slice())?;
    text.append(b" syncs ")?;
    decimal(count.syncs, text)?;
    text.append(b" sends ")?;
    decimal(count.sends, text)?;
    text.append(b"\n")
}

/// Appends the lines about both channels of a link.
fn link_lines(
    number: usize,
    link: &Link,
    names: &[Name],
    counts: &[Count],
    text: &mut Octets,
) -> Result<(), NoMemory>
    requires named { IsNamed names.now link.now }
    requires counted { 2 * number + 1 < length counts.now }
    requires few { number < 1024 }
    ensures { OnOk result (text.new ≡ text.old ++ link_lines names.now counts.now number link.now) }
{
    let channel = 2 * number;
    let a = &names[link.a as usize];
    let b = &names[link.b as usize];
    channel_line(channel as u64, a, b, &counts[channel], text)?;
    channel_line(channel as u64 + 1, b, a, &counts[channel + 1], text)
}

/// A line for each channel, in order: `channel <k> <from> <to> syncs <n> sends <m>` with the channel's number, the names
/// of the components at its ends, and how many null messages and events went on it. Link `j` has the channels `2 * j`,
/// from its first end to its second, and `2 * j + 1` back. `NoMemory` comes only where memory is wanting.
pub fn channel_lines(
    alloc: Global,
    names: &[Name],
    links: &[Link],
    counts: &[Count],
) -> Result<Octets, NoMemory>
    requires named { All (IsNamed names.now) links.now }
    requires counted { length counts.now ≡ 2 * length links.now }
    requires few { length links.now ≤ 1024 }
    ensures { IfOk result (λ text. text ≡ statistics names.now links.now counts.now) }
{
    let mut text = Octets::new(alloc);
    for (number, link) in links.iter().enumerate() {
        link_lines(number, link, names, counts, &mut text)?;
    }
    Ok(text)
}
