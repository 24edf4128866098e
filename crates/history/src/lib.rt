// Histories of calls, and what each CPU stands for after one. The definitions stand in specs/.
#![tactic(auto)]
