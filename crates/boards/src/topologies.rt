// Topologies at the limits of acceptance. But for MAX and topology the board is the bench board: four states, d 2, primary 0.
use crate::write::Board;
use fresh::fresh;
use lines::say;
use model::code::number;
use model::sorts::{CpuNumber, PowerLevel};
use model::states::Platform;

// The number that a board is answered with.
fn answer(platform: Platform, primary: u8, topology: &[u8]) -> i32 {
    number(fresh(platform, CpuNumber(primary), topology).code)
}

pub(super) fn platform(max: u8, states: u8, down: u8) -> Platform {
    Platform {
        max: PowerLevel(max),
        states,
        down,
    }
}

fn is(max: u8, topology: &[u8], number: i32) -> bool {
    answer(platform(max, 4, 2), 0, topology) == number
}

// Says in these words that a topology is answered with this number.
fn answered(max: u8, topology: &[u8], number: i32, words: &str) {
    say(
        format_args!("{} {words}", Board { max, topology }),
        is(max, topology, number),
    );
}

fn refused(max: u8, topology: &[u8]) {
    answered(max, topology, 101, "is 101");
}

fn passes(max: u8, topology: &[u8]) {
    answered(max, topology, 0, "passes");
}

fn run_bench() {
    passes(2, &[1, 2, 2, 2]);
    refused(2, &[1, 2, 2]);
    refused(2, &[1, 2, 2, 0]);
}

fn run_empty() {
    refused(1, &[]);
    refused(2, &[]);
    refused(3, &[]);
}

fn run_zeros() {
    refused(2, &[0, 2, 2, 2]);
    refused(2, &[1, 0, 2, 2]);
    refused(2, &[1, 2, 0, 2]);
}

fn run_large() {
    refused(2, &[255, 2, 2, 2]);
    refused(2, &[1, 255, 2, 2]);
    refused(2, &[1, 2, 2, 255]);
    refused(2, &[1, 2, 2, 2, 1]);
}

// The same entries at another MAX.
fn run_levels() {
    refused(1, &[1, 2, 2, 2]);
    refused(3, &[1, 2, 2, 2]);
    refused(2, &[1]);
}

fn run_long() {
    say("at MAX 1 255 entries of 1 are 101", is(1, &[1; 255], 101));
    say("at MAX 3 255 entries of 1 are 101", is(3, &[1; 255], 101));
    say(
        "at MAX 3 255 entries of 255 are 101",
        is(3, &[255; 255], 101),
    );
}

fn run_cpus() {
    passes(1, &[1, 16]);
    refused(1, &[1, 17]);
    passes(2, &[1, 2, 8, 8]);
    refused(2, &[1, 2, 8, 9]);
}

fn run_domains() {
    passes(1, &[16, 1, 1, 1, 1, 1, 1, 1, 1, 1, 1, 1, 1, 1, 1, 1, 1]);
    refused(1, &[17, 1, 1, 1, 1, 1, 1, 1, 1, 1, 1, 1, 1, 1, 1, 1, 1, 1]);
    passes(2, &[1, 15, 2, 1, 1, 1, 1, 1, 1, 1, 1, 1, 1, 1, 1, 1, 1]);
    refused(2, &[1, 16, 1, 1, 1, 1, 1, 1, 1, 1, 1, 1, 1, 1, 1, 1, 1, 1]);
}

fn run_primary() {
    let primary = |cpu: u8| answer(platform(2, 4, 2), cpu, &[1, 2, 2, 2]);
    say("on topology 1,2,2,2 primary 3 passes", primary(3) == 0);
    say("on topology 1,2,2,2 primary 4 is 101", primary(4) == 101);
    say(
        "on topology 1,2,2,2 primary 255 is 101",
        primary(255) == 101,
    );
}

// Says that a platform is refused on topology 1,2,2,2 at MAX 2.
fn platform_refused(states: u8, down: u8) {
    say(
        format_args!("at MAX 2 topology 1,2,2,2 with states {states} and d {down} is 101"),
        answer(platform(2, states, down), 0, &[1, 2, 2, 2]) == 101,
    );
}

fn run_platforms() {
    refused(0, &[1]);
    refused(4, &[1, 1, 1, 1, 1]);
    platform_refused(1, 1);
    platform_refused(1, 0);
    platform_refused(17, 2);
    platform_refused(4, 0);
    platform_refused(4, 4);
}

pub(super) fn run() {
    run_bench();
    run_empty();
    run_zeros();
    run_large();
    run_levels();
    run_long();
    run_cpus();
    run_domains();
    run_primary();
    run_platforms();
}
