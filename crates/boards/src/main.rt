// Runs the compiled code on boards: topologies and platforms that are accepted and refused, the tree that is made, and the fresh
// state. Each line is a statement and whether it holds; the file `stdout` has them all at yes.
#![tactic(auto)]

mod bench;
mod boards;
mod refusals;
mod topologies;
mod trees;
mod write;

fn main() {
    topologies::run();
    boards::run();
    trees::run();
    refusals::run();
    bench::run();
}
