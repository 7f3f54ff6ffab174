// The ordinary caller, who hands a stream over piece by piece, answers each question and tells the end: it gets all of the plain reading, and all of an honest show. There is no code here: see specs/ and proofs/.
#![tactic(auto)]
