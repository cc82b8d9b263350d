// The bench program (STORE 17): items from standard input, a line for each.
#![tactic(auto)]

fn main(rt: HostRuntime) {
    reader::run(rt, false);
}
