// Byte strings as the definitions of the other crates write them, and how far a text goes well. There is no code here: see specs/.
#![tactic(auto)]
