//! Runs flows of records.
#![tactic(auto)]

mod arguments;
mod serve;
mod still;
#[cfg(test)]
mod tests;

use arguments::gather;
use ds_port::{DiskFiles, StdoutSink};
use std::env;
use std::process::ExitCode;
use still::{lack_memory, osh_still};

fn main(rt: HostRuntime) -> ExitCode {
    let alloc = rt.alloc();
    let mut out = StdoutSink::new(rt.stdout());
    let mut err = StdoutSink::new(rt.stderr());
    let status = match gather(alloc, env::args(&rt)) {
        Ok(words) => {
            let mut files = DiskFiles::new(alloc, rt);
            osh_still(alloc, &words, &mut files, &mut out, &mut err)
        }
        Err(_) => lack_memory(alloc, &mut err),
    };
    ExitCode::from(status.0)
}
