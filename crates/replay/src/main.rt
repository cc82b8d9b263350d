// The bench program on a recorded input. Its expected output is the Rust's own answers (docs/oracle.md).
#![tactic(auto)]

fn main(rt: HostRuntime) {
    reader::run(rt, false);
}
