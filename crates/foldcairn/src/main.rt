//! The program: the words and the standard streams of the process.
#![tactic(auto)]

mod call;

use call::TopCall;
use command_line::run_process;
use lwb_base::{ReaderSource, WriterSink};
use std::env;
use std::process::ExitCode;

fn main(rt: HostRuntime) -> ExitCode {
    let mut source = ReaderSource::new(rt.stdin());
    let mut sink = WriterSink::new(rt.stdout());
    run_process::<TopCall, _, _>(rt.alloc(), env::args(&rt), &mut source, &mut sink)
}
