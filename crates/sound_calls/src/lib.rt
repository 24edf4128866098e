// The calls on a state that is known to be sound: nothing here tests it. On another state they end as well, and give what the definition
// says. The calls of `in_place` do the same to rows that are lent, and hand out states alone; what both do stands in `checks`,
// `coordinate` and `cpu_steps`.
#![tactic(auto)]

mod acted;
pub mod down;
pub mod on;
pub mod wake;
