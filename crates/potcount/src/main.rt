// Answers each line of standard input with a line on standard output.
#![tactic(auto)]

fn main(rt: HostRuntime) {
    console::serve(&mut rt.stdin(), &mut rt.stdout(), &rt);
}
