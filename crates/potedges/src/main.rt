// The same program on the edges of its rules: overlong and unfinished lines, bytes that are no digits, refusals, and the sketch after each kind of answer.
// A crate of its own, since a program is run on one input.
#![tactic(auto)]

fn main(rt: HostRuntime) {
    console::serve(&mut rt.stdin(), &mut rt.stdout(), &rt);
}
