// The last-CPU and the all-on test: a walk over the row of affinities. A count and no slice, as in `cpu_walk`.
ghost use Rattle.std.specs.Prelude.{◌||◌, ◌≡◌, eqb};
ghost use Rattle.cpu_table.specs.CpuTable.{all_on_bytes, others_off_bytes};

use image::affinity_in;
use model::cpu::AffinityInfo;
use model::limits::CPUS;
use rows::cells::at;

// Is the CPU at a place the one given, or Off?
fn off_but(a: u8, c: usize, but: u8) -> bool
    ensures { result ≡ (eqb c but || eqb a 1) }
{
    (c == but as usize) | (affinity_in(a) == AffinityInfo::Off)
}

// Is the CPU On?
fn on(a: u8) -> bool
    ensures { result ≡ eqb a 0 }
{
    affinity_in(a) == AffinityInfo::On
}

// Is every CPU of the first so many Off, but for one?
pub fn others_off(affinities: &[u8; CPUS], count: u8, but: u8) -> bool
    ensures { result ≡ others_off_bytes affinities.now count but }
{
    for c in 0..count as usize {
        if !off_but(at(affinities, c), c, but) {
            return false;
        }
    }
    true
}

// Is every CPU of the first so many On?
pub fn all_on(affinities: &[u8; CPUS], count: u8) -> bool
    ensures { result ≡ all_on_bytes affinities.now count }
{
    for c in 0..count as usize {
        if !on(at(affinities, c)) {
            return false;
        }
    }
    true
}
