//! Co-simulation of whole systems: the program.
#![tactic(auto)]

use cosim_cmd::{cosim_local, cosim_run};
use cs_base::{Dialer, Files, OpenGate, RealFiles, RealSink, Sink};
use std::alloc::Global;
use std::process::ExitCode;
use std::sync::Wait;
use std::thread::Threads;
use std::{env, io};
use tcp_dialer::TcpDialer;

/// The words after the program's name. Where a word is no UTF-8 there are none, and so no sentence.
fn words(rt: &HostRuntime) -> io::Result<Vec<String>> {
    let mut words = Vec::new(rt.alloc());
    match env::args(rt) {
        Ok(given) => {
            for word in given.skip(1) {
                words.push(word)?;
            }
            Ok(words)
        }
        Err(error) if error.kind() == io::ErrorKind::InvalidData => Ok(words),
        Err(error) => Err(error),
    }
}

/// Whether the words call for the command that may wait.
fn are_of_run(words: &[String]) -> bool {
    match words.first() {
        Some(command) => command.as_str() == "run",
        None => false,
    }
}

/// Runs components on threads.
fn on_threads<R: Threads + Wait + Sync, F: Files, D: Dialer, K: Sink, E: Sink>(
    rt: &R,
    alloc: Global,
    words: &[String],
    files: &mut F,
    dial: &mut D,
    out: &mut K,
    err: &mut E,
) -> u8
where
    D::Out: Drop + Send,
    D::In: Drop + Send,
{
    let mut ends = Vec::new(alloc);
    let mut rests = Vec::new(alloc);
    cosim_run(
        rt, alloc, words, files, dial, &mut ends, &mut rests, out, err, &OpenGate,
    )
}

fn main(rt: HostRuntime) -> ExitCode {
    let mut err = RealSink::new(rt.stderr());
    let Ok(words) = words(&rt) else {
        let _ = rt.eprintln("cosim: no memory");
        return ExitCode::from(1);
    };
    let words = words.as_slice();
    let mut files = RealFiles::new(&rt);
    let mut out = RealSink::new(rt.stdout());
    let status = if are_of_run(words) {
        let mut dial = TcpDialer::new(&rt);
        on_threads(
            &rt,
            rt.alloc(),
            words,
            &mut files,
            &mut dial,
            &mut out,
            &mut err,
        )
    } else {
        cosim_local(rt.alloc(), words, &mut files, &mut out, &mut err)
    };
    ExitCode::from(status)
}
