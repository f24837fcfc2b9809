//! Judges recorded histories of replicated objects: `causal_judge COMMAND`, with the input in files or on standard input and the
//! answer on standard output.
#![tactic(auto)]

use app_process::Terminals;
use std::io::IsTerminal;
use std::process::ExitCode;

fn main(rt: HostRuntime) -> ExitCode {
    let terminals = Terminals {
        input: rt.stdin().is_terminal(),
        output: rt.stdout().is_terminal(),
        error: rt.stderr().is_terminal(),
    };
    ExitCode::from(app_process::status_of_process(&rt, terminals))
}
