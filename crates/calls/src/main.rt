// Runs the compiled calls on the bench board. Each line is a statement and whether it holds; the file `stdout` has them all at yes.
#![tactic(auto)]

mod bench;
mod histories;
mod write;

fn main() {
    histories::sleep();
    histories::wake();
    histories::refuse();
    histories::system();
}
