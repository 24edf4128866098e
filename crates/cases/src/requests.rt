// Suspend requests: B9 on the bench board, and the smallest one that the Rust orders otherwise.
use lines::say;
use model::sorts::PowerLevel;
use model::states::{CompositeState, Platform};
use states::request::{
    find_highest_non_run_level, find_highest_power_down_level, is_valid_suspend_request,
};

fn platform(max: u8, states: u8, down: u8) -> Platform {
    Platform {
        max: PowerLevel(max),
        states,
        down,
    }
}

fn of(level0: u8, level1: u8, level2: u8) -> CompositeState {
    CompositeState {
        level0,
        level1,
        level2,
        level3: 0,
    }
}

fn run_valid() {
    // that of the bench board, and that of the smallest difference
    let board = platform(2, 4, 2);
    let small = platform(1, 3, 1);
    for (statement, platform, request, valid) in [
        ("request 2,0,1 is refused", board, of(2, 0, 1), false),
        ("request 0,0,0 is refused", board, of(0, 0, 0), false),
        ("request 1,2,0 is refused", board, of(1, 2, 0), false),
        ("request 2,3,0 is valid", board, of(2, 3, 0), true),
        ("request 2,2,0 is valid", board, of(2, 2, 0), true),
        ("request 4,0,0 is refused", board, of(4, 0, 0), false),
        ("request 1,2 with d 1 is valid", small, of(1, 2, 0), true),
        (
            "request 1,1,1 at MAX 1 is refused",
            small,
            of(1, 1, 1),
            false,
        ),
    ] {
        say(
            statement,
            is_valid_suspend_request(platform, request) == valid,
        );
    }
}

fn run_affected() {
    let affected = |request: CompositeState| find_highest_non_run_level(platform(2, 4, 2), request);
    say(
        "2,2,0 affects up to level 1",
        affected(of(2, 2, 0)) == Some(PowerLevel(1)),
    );
    say(
        "2,1,1 affects up to level 2",
        affected(of(2, 1, 1)) == Some(PowerLevel(2)),
    );
    say("0,0,0 affects no level", affected(of(0, 0, 0)).is_none());
}

fn run_powered_down() {
    let down = |request: CompositeState| find_highest_power_down_level(platform(2, 4, 2), request);
    say(
        "2,1,1 powers down level 0",
        down(of(2, 1, 1)) == Some(PowerLevel(0)),
    );
    say(
        "3,3,3 powers down up to level 2",
        down(of(3, 3, 3)) == Some(PowerLevel(2)),
    );
    say("1,1,1 powers down no level", down(of(1, 1, 1)).is_none());
}

pub(super) fn run() {
    run_valid();
    run_affected();
    run_powered_down();
}
