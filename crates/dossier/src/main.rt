// Prints the dossier page of the grid that standard input describes, or the line that says why it is refused. Where the input cannot be read, or the
// output not be written, it says so on standard error.
#![tactic(auto)]

use reports::input::read_full;
use std::io::Write;

// Says it on standard error; where that cannot be written either, nothing is left to say it on.
fn complain(rt: &HostRuntime, line: &[u8]) {
    let _ = rt.stderr().write_all(line);
}

// Prints what the program prints for the input.
fn answer(rt: &HostRuntime, input: &[u8]) {
    let mut out = [0u8; 104000];
    let k = program::print(input, &mut out).unwrap_or(0);
    if rt.stdout().write_all(&out[..k]).is_err() {
        complain(rt, b"dossier: standard output cannot be written\n");
    }
}

// What was read before a read that failed is no input: it would be taken for a tape, and its page looks like any other.
fn main(rt: HostRuntime) {
    // One byte past the longest input is enough to refuse it.
    let mut input = [0u8; 60001];
    let Ok(n) = read_full(&mut rt.stdin(), &mut input) else {
        complain(&rt, b"dossier: standard input cannot be read\n");
        return;
    };
    answer(&rt, &input[..n]);
}
