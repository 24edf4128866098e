// The types of scripts: what is read, and what a run answers. The definitions stand in specs/.
#![tactic(auto)]

pub mod limits;
pub mod record;
pub mod run;
