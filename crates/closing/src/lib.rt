// A reading closes exactly where the stream of an honest show ends. There is no code here: see specs/ and proofs/.
#![tactic(auto)]
