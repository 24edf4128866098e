ghost use Rattle.std.specs.Prelude.{◌≡◌, ◌<◌};
ghost use Rattle.model.specs.Assign.{all_assigned_of, assigned_of, entered_of, span_rows};
ghost use Rattle.model.specs.Span.{grown_of};
ghost use Rattle.model.specs.Topology.{cpus_of};
ghost use Rattle.model.specs.Tree.{no_row};

use crate::accept::Topology;
use model::limits::DOMAINS;
use model::node::Span;
use model::sorts::{CpuNumber, DomainNumber};
use rows::cells::{at, put};

// Where a span starts once a CPU is entered: an empty one starts at the CPU.
fn start_with(span: Span, cpu: CpuNumber) -> u8
    ensures { result ≡ (grown_of span cpu.0).start }
{
    if span.end <= span.start {
        return cpu.0;
    }
    span.start
}

// Enters a CPU into the span of one domain. Two rows and no struct of them: two functions alone take them.
fn enter(starts: &mut [u8; DOMAINS], ends: &mut [u8; DOMAINS], domain: DomainNumber, cpu: CpuNumber)
    requires { cpu.0 < 255 }
    ensures { span_rows starts.new ends.new
        ≡ entered_of domain.0 cpu.0 (span_rows starts.old ends.old) }
{
    let d = domain.0 as usize;
    let span = Span {
        start: at(starts, d),
        end: at(ends, d),
    };
    put(starts, d, start_with(span, cpu));
    put(ends, d, cpu.0 + 1);
}

// Enters a CPU into the span of a domain and, by calling itself, into every ancestor's, so many levels in all.
fn assign_cpu(
    parents: &[u8; DOMAINS],
    starts: &mut [u8; DOMAINS],
    ends: &mut [u8; DOMAINS],
    domain: DomainNumber,
    cpu: CpuNumber,
    left: u8,
)
    requires { cpu.0 < 255 }
    ensures { span_rows starts.new ends.new
        ≡ assigned_of left parents.now domain.0 cpu.0 (span_rows starts.old ends.old) }
{
    if left == 0 {
        return;
    }
    enter(starts, ends, domain, cpu);
    let parent = DomainNumber(at(parents, domain.0 as usize));
    assign_cpu(parents, starts, ends, parent, cpu, left - 1);
}

impl<'a> Topology<'a> {
    // The rows of the starts and of the ends of the CPU spans. Every CPU is entered in turn, from the domain directly above it.
    pub(super) fn cpu_spans(&self, parents: &[u8; DOMAINS]) -> ([u8; DOMAINS], [u8; DOMAINS])
        ensures { span_rows result.0 result.1
            ≡ all_assigned_of self.now.entries self.now.max parents.now (cpus_of self.now.entries self.now.max)
            (span_rows no_row no_row) }
    {
        let mut starts = [0; DOMAINS];
        let mut ends = [0; DOMAINS];
        for cpu in 0..self.cpu_count() {
            let parent = DomainNumber(self.cpu_parent(cpu));
            assign_cpu(
                parents,
                &mut starts,
                &mut ends,
                parent,
                CpuNumber(cpu),
                self.max,
            );
        }
        (starts, ends)
    }
}
