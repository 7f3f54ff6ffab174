// Reading a stream section by section, whatever the protocol, and why the cutting of the stream does not matter. There is no code here: see specs/ and proofs/.
#![tactic(auto)]
