// Shows that are honest, computed: that what the claims assume of a show is met. There is no code here, and nothing that an edit would have to
// pay for: see proofs/.
#![tactic(auto)]
