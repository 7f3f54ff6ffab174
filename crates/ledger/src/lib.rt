// The points of the rules ledger as computed examples of the definitions, which stand in crates below. There is no code here: see proofs/.
#![tactic(auto)]
