// What the three lent buffers hold after any list of calls, and why a stream alone decides it. There is no code here: see specs/ and proofs/.
#![tactic(auto)]
