// Runs the link on calls: each line of standard input is a call in hexadecimal digits; its number and its records go to
// standard output as lines.
#![tactic(auto)]

mod answers;
mod chunks;
mod input;
mod run;
mod text;

use run::Run;

fn main(rt: HostRuntime) {
    // Where an answer cannot be written the run ends.
    let _ = Run::new().run(rt.stdin(), rt.stdout());
}
