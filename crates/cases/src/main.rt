// Runs the compiled code on what the scope and docs/DIFFERENCES.md say of answers, platforms, requests and records. Each line is a
// statement and whether it holds; the file `stdout` has them all at yes.
#![tactic(auto)]

mod answers;
mod domains;
mod entries;
mod platforms;
mod queries;
mod requests;
mod walks;

fn main() {
    answers::run();
    platforms::run();
    requests::run();
    domains::run();
    queries::run();
    entries::run();
    walks::run();
}
