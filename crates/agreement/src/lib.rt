// The reader's calls beside the plain reading: what a caller sees of each, and why it is the same. There is no code here: see specs/ and proofs/.
#![tactic(auto)]
