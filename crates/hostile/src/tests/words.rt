//! Words of a megabyte, words by the thousand, and a file with a megabyte of comments.
use super::{BEACONS, FILE, LOG, Outside, Run, TWO_WORKERS, local, run_plain};
use std::alloc::Global;
use std::string::String;
use std::sync::Wait;
use std::test::Fail;
use std::thread::Threads;

const TEN: &str = "xxxxxxxxxx";

/// A text of so many equal parts.
fn many(alloc: Global, part: &str, count: u32) -> Result<String, Fail> {
    let mut text = String::new(alloc);
    for _ in 0..count {
        text.push_str(part)?;
    }
    Ok(text)
}

/// Its words were refused, and no file was asked for.
fn is_usage(answer: &Run) -> bool {
    answer.refuses(2, "cosim: usage\n", "") && answer.dials_none()
}

/// A run of the files in memory, of which none is named by these words.
fn run<R: Threads + Wait + Sync>(rt: &R, alloc: Global, words: &[&str]) -> Result<Run, Fail> {
    run_plain(rt, alloc, words, Outside::of_text(alloc, "")?)
}

/// Another command over the same.
fn model(alloc: Global, words: &[&str]) -> Result<Run, Fail> {
    local(alloc, words, Outside::of_text(alloc, "")?)
}

#[test]
fn a_name_of_a_megabyte_is_asked_for(rt: HostRuntime) -> Result<(), Fail> {
    let alloc = rt.alloc();
    let name = many(alloc, TEN, 100_000)?;
    let line = format!(in alloc; "cosim: file {name}\n")?;
    let asked = format!(in alloc; "{name}\n")?;
    let answer = run(&rt, alloc, &["run", name.as_str(), TWO_WORKERS])?;
    assert!(rt; answer.refuses(3, line.as_str(), asked.as_str()));
    let answer = model(alloc, &["model", name.as_str()])?;
    assert!(rt; answer.refuses(3, line.as_str(), asked.as_str()));
    Ok(())
}

#[test]
fn a_word_of_a_megabyte_is_no_number_and_no_command(rt: HostRuntime) -> Result<(), Fail> {
    let alloc = rt.alloc();
    let name = many(alloc, TEN, 100_000)?;
    let option = format!(in alloc; "--workers={name}")?;
    assert!(rt; is_usage(&run(&rt, alloc, &["run", FILE, option.as_str()])?));
    assert!(rt; is_usage(&model(alloc, &[name.as_str()])?));
    Ok(())
}

/// Ten thousand times one word.
fn ten_thousand(alloc: Global, word: &'static str) -> Result<Vec<&'static str>, Fail> {
    let mut words = Vec::new(alloc);
    for _ in 0..10_000u32 {
        words.push(word)?;
    }
    Ok(words)
}

#[test]
fn thousands_of_words_are_no_sentence(rt: HostRuntime) -> Result<(), Fail> {
    let alloc = rt.alloc();
    let words = ten_thousand(alloc, "model")?;
    assert!(rt; is_usage(&model(alloc, words.as_slice())?));
    let words = ten_thousand(alloc, "run")?;
    assert!(rt; is_usage(&run(&rt, alloc, words.as_slice())?));
    Ok(())
}

#[test]
fn comments_are_passed_over(rt: HostRuntime) -> Result<(), Fail> {
    let alloc = rt.alloc();
    let comments = many(alloc, "# nothing\n", 100_000)?;
    let text = format!(in alloc; "{comments}{BEACONS}")?;
    let answer = local(
        alloc,
        &["model", FILE],
        Outside::of_text(alloc, text.as_str())?,
    )?;
    assert_eq!(rt; answer.status, 0);
    assert_eq!(rt; answer.out.as_slice(), LOG.as_bytes());
    assert!(rt; answer.err.is_empty());
    Ok(())
}
