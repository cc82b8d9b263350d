// The bench program with the line of `trace` behind each of its own, on scenarios of the two rules of ageing (STORE 7.7). Input and expected
// lines are those of tools/model, which was written from the rules alone: the Rust knows only one of the two.
#![tactic(auto)]

fn main(rt: HostRuntime) {
    reader::run(rt, true);
}
