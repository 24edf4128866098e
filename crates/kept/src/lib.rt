// Every call keeps a sound state sound, and what it leaves alone: no code.
#![tactic(auto)]
