// That each form of text of the crate `stream` has just the texts which its rules call good, and so that the place where a text stops agreeing
// with its form is the length of the longest beginning that some good text also has. There is no code here: see proofs/.
#![tactic(auto)]
