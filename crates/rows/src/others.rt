ghost use Rattle.std.specs.Prelude.{◌&&◌, not, ◌≡◌, get_or};
ghost use Rattle.model.specs.Below.{every};
ghost use Rattle.model.specs.Minimum.{minimum_of};
ghost use Rattle.model.specs.Query.{allowed_of, besideb};
ghost use Rattle.model.specs.Span.{from_to_withoutb};

use crate::cells::at;
use crate::least::least_without;
use model::node::NO_SUSPEND_STATE;

// What a CPU allows its domain: its request, but its suspend state if it has one beside the request RUN.
pub fn allowed(request: u8, suspend: u8) -> u8
    ensures { result ≡ allowed_of request suspend }
{
    if request != 0 {
        return request;
    }
    if suspend != NO_SUSPEND_STATE {
        return suspend;
    }
    0
}

// Is there a suspend state beside a request that is not RUN?
pub fn beside(request: u8, suspend: u8) -> bool
    ensures { result ≡ besideb request suspend }
{
    (request != 0) & (suspend != NO_SUSPEND_STATE)
}

// The shallowest that the CPUs from start on and before end allow, but for one of them; OFF where there is none.
pub fn allowed_without<'a>(
    requests: &'a [u8],
    suspends: &'a [u8],
    start: usize,
    end: usize,
    one: usize,
    off: u8,
) -> u8
    ensures { result ≡ minimum_of end (from_to_withoutb start end one)
        (λ i. allowed_of (get_or requests.now i 0) (get_or suspends.now i 0)) off }
{
    let state = |i: usize| allowed(at(requests, i), at(suspends, i));
    least_without(start, end, one, off, state)
}

// Has none of those CPUs a suspend state beside a request that is not RUN?
pub fn none_beside_without<'a>(
    requests: &'a [u8],
    suspends: &'a [u8],
    start: usize,
    end: usize,
    one: usize,
) -> bool
    ensures { result ≡ every end (λ i. not (from_to_withoutb start end one i
        && besideb (get_or requests.now i 0) (get_or suspends.now i 0))) }
{
    let mut none = true;
    // a number, since it goes into two rows, and may be the one that is left out
    for i in start..end {
        let both = beside(at(requests, i), at(suspends, i));
        none = none & !((i != one) & both);
    }
    none
}
