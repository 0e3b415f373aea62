// The program on an empty input: no line, so no answer. There is no stdout file, so nothing may be written.
// A crate of its own, since a program is run on one input.
#![tactic(auto)]

fn main(rt: HostRuntime) {
    console::serve(&mut rt.stdin(), &mut rt.stdout(), &rt);
}
