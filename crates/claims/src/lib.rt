// The front page: what is claimed, each in a file of its own under specs/, and proved under proofs/. There is no code here: that the reader's calls are the
// calls of these claims is in crate contracts.
#![tactic(auto)]
