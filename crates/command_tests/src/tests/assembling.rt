//! Sources and their bytes, or the line about their fault.
use super::on_text;
use std::test::Fail;

/// A source, and what `asm` answers, writes and says.
const SOURCES: [(&str, u8, &[u8], &str); 4] = [
    ("", 0, &[], ""),
    (
        "li x5, 0x80000000\n",
        0,
        &[0xb7, 0x02, 0x00, 0x80, 0x93, 0x82, 0x02, 0x00],
        "",
    ),
    ("nop\nfoo\n", 11, &[], "cosim: asm 2 unknown word\n"),
    ("addi x1, x0, 2048", 11, &[], "cosim: asm 1 range\n"),
];

#[test]
fn sources_have_their_bytes_or_their_fault(rt: HostRuntime) -> Result<(), Fail> {
    for (source, status, bytes, line) in &SOURCES {
        let answer = on_text(rt.alloc(), "asm", source.as_bytes())?;
        answer.check(&rt, *status, bytes, line);
    }
    Ok(())
}
