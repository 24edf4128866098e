ghost use Rattle.std.specs.Prelude.{◌≡◌, get_or};
ghost use Rattle.model.specs.Path.{level_running_of, set_running_of};
ghost use Rattle.paths.specs.Rows.{SameRows, lent_domains};

use crate::DomainRows;
use crate::ancestors::parent_byte;
use levels::put_at_level;
use model::limits::DOMAINS;
use model::node::NO_SUSPEND_STATE;
use model::sorts::{CpuNumber, DomainNumber, PowerLevel};
use rows::cells::{put, put_if};

impl DomainRows<'_> {
    // A domain of a level runs for a CPU: its state and the request are RUN, there is no suspend state, and below the top its copy is
    // RUN. Gives back the domain above it.
    fn run_level(&mut self, parents: &[u8; DOMAINS], max: u8, level: u8, domain: u8, cpu: u8) -> u8
        ensures value { result ≡ get_or parents.now domain 0 }
        ensures same { SameRows self.old self.new }
        ensures rows { lent_domains self.new
            ≡ level_running_of parents.now max level domain cpu (lent_domains self.old) }
    {
        put(self.states, domain as usize, 0);
        put_at_level(self.requests, PowerLevel(level), CpuNumber(cpu), 0);
        put_at_level(
            self.suspends,
            PowerLevel(level),
            CpuNumber(cpu),
            NO_SUSPEND_STATE,
        );
        put_if(self.copies, level < max, domain as usize, 0);
        parent_byte(parents, domain)
    }

    // Marks a CPU as running in all the domains above it, and those domains as running: the Rust's `set_running`.
    #[tactic(auto, using(crate::proofs::Path::above_none, crate::proofs::Path::above_turn, crate::proofs::Path::running_none, crate::proofs::Path::running_turn))]
    pub fn set_running(
        &mut self,
        parents: &[u8; DOMAINS],
        max: PowerLevel,
        first: DomainNumber,
        cpu: CpuNumber,
    )
        ensures same { SameRows self.old self.new }
        ensures rows { lent_domains self.new
            ≡ set_running_of parents.now max.0 first.0 cpu.0 (lent_domains self.old) }
    {
        let top = max.0;
        let mut d = first.0;
        // a number: the level below
        for below in 0..top {
            d = self.run_level(parents, top, below + 1, d, cpu.0);
        }
    }
}
