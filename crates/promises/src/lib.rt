// The three demands, gathered: no code, but the statements in specs/Demands.antt and their proof.
#![tactic(auto)]
