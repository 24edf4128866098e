// Entering every CPU builds the spans of the tree: no code.
#![tactic(auto)]
