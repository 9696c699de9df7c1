//! `sketchtool` reads one command from standard input: a line with the form of the answer, and a plan of theta or of
//! tuple sketches in prefix order. It writes the answer, or the first fault of the text, to standard output, and
//! nothing elsewhere. Unless memory is refused or a read or a write fails, the output depends on the input alone. The
//! exit status is 0 for an answer, 1 for a fault and 2 for a failed read or write.
#![tactic(auto)]

use plan_runs::run;
use std::process::ExitCode;

fn main(rt: HostRuntime) -> ExitCode {
    let mut reader = rt.stdin();
    let mut writer = rt.stdout();
    let ending = run(rt.alloc(), &mut reader, &mut writer);
    ExitCode::from(ending.status())
}
