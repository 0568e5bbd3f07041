// Trials of the registers and the judge: the sessions that are not proved, and every refusal, obtained from the code. A trial is a line of
// the standard input: words, a bar and numbers. The words are printed, then what comes of the acts that the numbers say (see `acts`). The
// outside model writes the trials and the same lines of output.
#![tactic(auto)]

mod text; // what is printed
mod marks; // buffers of marks
mod calls; // how a call is printed
mod logs; // the judge of rows and of bytes
mod changes; // a state with a field changed
mod acts; // what is done in a trial
mod trial; // a trial, and what the acts make of it
mod trial_lines; // the trials of a text

use std::io;

fn main(rt: HostRuntime) -> io::Result<()> {
    let mut text = [0u8; 65536];
    let n = inputs::read_standard(&rt, &mut text);
    trial_lines::try_all(&rt, &text[..n])
}
