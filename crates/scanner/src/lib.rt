// Forms of text: what they are made of, how a text is held against one byte by byte, and that the place where this stops is the length of the
// longest beginning that some text of the form also has. There is no code here: see specs/.
#![tactic(auto)]
