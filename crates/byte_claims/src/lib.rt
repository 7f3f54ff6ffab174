// The claims about the exported calls, which work on bytes (specs/ states them, proofs/ proves them). No code.
#![tactic(auto)]
