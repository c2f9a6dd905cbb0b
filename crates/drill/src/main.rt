// The drill program: a drill file from standard input, its answers in lines to standard output.
#![tactic(auto)]

fn main(rt: HostRuntime) {
    drill_io::list_all(&mut rt.stdin(), &rt.stdout(), &rt.stderr(), b"drill");
}
