// Platforms at the limits of acceptance.
use lines::say;
use model::code::number;
use model::sorts::PowerLevel;
use model::states::Platform;
use states::platform::accept_platform;

pub(super) fn run() {
    // MAX, the count of states, the first power-down state, and the number that the platform is answered with
    for (max, states, down, wanted) in [
        (1, 2, 1, 0),
        (3, 16, 15, 0),
        (0, 4, 2, 101),
        (4, 4, 2, 101),
        (2, 1, 1, 101),
        (2, 17, 2, 101),
        (2, 4, 0, 101),
        (2, 4, 4, 101),
        (2, 0, 0, 101),
        (255, 255, 255, 101),
    ] {
        let p = Platform {
            max: PowerLevel(max),
            states,
            down,
        };
        say(
            format_args!("platform {max},{states},{down} is {wanted}"),
            number(accept_platform(p)) == wanted,
        );
    }
}
