ghost use Rattle.std.specs.Prelude.{◌≡◌};
ghost use Rattle.model.specs.Limits.{cpu_limit, domain_limit};

// The most CPUs of a board.
pub const CPUS: usize = 16;

// The most power domains of a board.
pub const DOMAINS: usize = 16;

// The most entries of a topology: one for the top, one for each domain.
pub const ENTRIES: usize = DOMAINS + 1;

// The highest MAX of a platform.
pub const HIGHEST_MAX: u8 = 3;

// The slots of a table by level and CPU.
pub const REQUESTS: usize = HIGHEST_MAX as usize * CPUS;

// The most states of a platform.
pub const STATES: u8 = 16;

// The limit on CPUs: the code's is the definitions'. (A function for each limit, since each promises its own.)
pub fn cpu_limit() -> usize
    ensures { result ≡ cpu_limit }
{
    CPUS
}

// The limit on domains: the code's is the definitions'.
pub fn domain_limit() -> usize
    ensures { result ≡ domain_limit }
{
    DOMAINS
}
