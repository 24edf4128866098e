// The test of a whole state record, sound or not, that every call begins with.
#![tactic(auto)]

mod trees;

ghost use Rattle.std.specs.Prelude.{◌≡◌, take, suc};
ghost use Rattle.model.specs.SoundTest.{soundb};
ghost use Rattle.model.specs.Tree.{tree_answer_of};

use model::board::TreeAnswer;
use model::sorts::CpuNumber;
use model::state::State;
use model::states::Platform;
use sound_cpus::cpus_sound;
use sound_domains::domains_sound;
use topology::power_domain_tree;

// The tree that the first entries of a row describe: one for the top, and one for each domain. The count
// is of a state that need not be sound.
fn described(p: Platform, primary: CpuNumber, row: &[u8], domains: u8) -> TreeAnswer
    ensures { result ≡ tree_answer_of p primary (take (suc domains) row.now) }
{
    let entries = domains as usize + 1;
    if entries < row.len() {
        return power_domain_tree(p, primary, &row[0..entries]);
    }
    power_domain_tree(p, primary, row)
}

// Is the state record sound?
#[tactic(auto, unfolding(model::specs::SoundTest::soundb))]
pub fn sound(s: State) -> bool
    ensures { result ≡ soundb s }
{
    let p = s.board.platform;
    let made = described(p, s.board.primary, &s.board.topology, s.tree.domain_count);
    let accepted = made.code.is_ok();
    let fits = trees::same_tree(s.tree, made.tree);
    let ends = trees::entries_end(&s.board.topology, s.tree.domain_count);
    let all_cpus = cpus_sound(p, s.tree.cpu_count, s.cpus, made.cpu_parents, s.domains);
    let all_domains = domains_sound(p, s.tree, s.domains);
    accepted & fits & ends & all_cpus & all_domains
}
