// What a request leaves as it was is read as before. There is no code here: see specs/ and proofs/.
#![tactic(auto)]
