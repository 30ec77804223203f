//! `praefect rehearse` reads a script from standard input, and prints what each of its lines answers.
#![tactic(auto)]

use px_base::{StdSink, StdSource};
use px_run::{start, start_without_memory};
use std::env;
use std::process::ExitCode;

fn main(rt: HostRuntime) -> ExitCode {
    let mut out = StdSink::new(rt.stdout());
    let mut err = StdSink::new(rt.stderr());
    match StdSource::new(rt.alloc(), rt.stdin()) {
        Ok(mut input) => start(rt.alloc(), env::args(&rt), &mut input, &mut out, &mut err),
        Err(_) => start_without_memory(&mut err),
    }
}
