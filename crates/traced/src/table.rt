// The tables of a reply, in their order: what goes out, the state after the call, the queries of that state.
// They are named, and no closures, since `cell_of`, of which write_reply promises the bytes, goes by these names.
#[derive(Clone, Copy)]
pub enum Table {
    // code, whether a suspend was not entered, which wake it was
    Head,
    // the entry that is handed out
    HandedOut,
    // the states that the platform is handed
    States,
    // a row for each notice
    Notices,
    // MAX, states, first power-down state, primary
    Board,
    Topology,
    // of the domains and of the CPUs
    Counts,
    Parents,
    CpuStarts,
    CpuEnds,
    ChildStarts,
    ChildEnds,
    // a row for each CPU
    Cpus,
    DomainStates,
    Requests,
    Suspends,
    Copies,
    Mode,
    AllOn,
    // by CPU
    IsLast,
    // by CPU and level
    LastToIdle,
    // by domain and CPU, with no child given
    Allowed,
    // by child and CPU, asked of the child's parent
    AllowedBesideChild,
}
