// The cases of document 01 that are run: a line for each, with what it answered. One module for each group of operations.
#![tactic(auto)]

mod decode;
mod define;
mod lines;
mod samples;
mod target;
mod triangles;

fn main(rt: HostRuntime) {
    decode::run(&rt);
    define::run(&rt);
    samples::run(&rt);
    target::run(&rt);
    triangles::run(&rt);
}
