// A board that lies in rows: each exported call makes of the rows what the call makes of the state. No code.
#![tactic(auto)]
