//! Which words are sentences.
use super::plain;
use std::test::Fail;

const NO_SENTENCES: [&[&str]; 29] = [
    &[],
    &[""],
    &["model"],
    &["model", "a", "b"],
    &["check", "--stats", "a"],
    &["model", "--stats", "a", "--stats"],
    &["model", "a", "--stats=1"],
    &["model", "a", "--help"],
    &["model", "-1"],
    &["model", "--", "a", "b"],
    &["replay", "a"],
    &["replay", "a", "b", "c"],
    &["replay", "a", "--stats", "b"],
    &["replay", "a", "b", "--", "c"],
    &["--help"],
    &["serial", "a", "b"],
    &["run", "a", "--workers", "2"],
    &["load"],
    &["load", "0"],
    &["load", "31"],
    &["load", "01"],
    &["load", "+1"],
    &["load", "-1"],
    &["load", "1 "],
    &["load", "4294967297"],
    &["load", "1", "2"],
    &["load", "1", "--stats"],
    &["load", "--text", "1", "--text"],
    &["load", "--", "--text"],
];

#[test]
fn other_words_are_refused(rt: HostRuntime) -> Result<(), Fail> {
    for words in &NO_SENTENCES {
        plain(rt.alloc(), words, b"")?.check(&rt, 2, b"", "cosim: usage\n");
    }
    Ok(())
}

/// Words of a sentence, and the line about their file, which isn't there.
const NAMED: [(&[&str], &str); 10] = [
    (&["model", "a"], "cosim: file a\n"),
    (&["check", "a"], "cosim: file a\n"),
    (&["asm", "a"], "cosim: file a\n"),
    (&["replay", "a", "b"], "cosim: file a\n"),
    (&["replay", "--", "-a", "--"], "cosim: file -a\n"),
    (&["model", "--stats", "a"], "cosim: file a\n"),
    (&["model", "-"], "cosim: file -\n"),
    (&["model", "--", "-x"], "cosim: file -x\n"),
    (&["model", "--", "--"], "cosim: file --\n"),
    (&["model", "a", "--"], "cosim: file a\n"),
];

#[test]
fn sentences_name_their_file(rt: HostRuntime) -> Result<(), Fail> {
    for (words, line) in &NAMED {
        plain(rt.alloc(), words, b"")?.check(&rt, 3, b"", line);
    }
    Ok(())
}
