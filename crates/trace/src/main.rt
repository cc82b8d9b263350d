// The bench program with one more line behind each: the Adler-32 of the whole room, by which every room can be compared.
#![tactic(auto)]

fn main(rt: HostRuntime) {
    reader::run(rt, true);
}
