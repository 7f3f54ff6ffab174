// What a version 4 signature stream is, and what is read from it: paper 01 as definitions. There is no code here: see specs/.
#![tactic(auto)]
