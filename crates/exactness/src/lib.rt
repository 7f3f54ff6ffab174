// The plain reading tells of a stream exactly what the paper's rules say, and an honest stream comes out whole. There is no code here: see specs/ and proofs/.
#![tactic(auto)]
