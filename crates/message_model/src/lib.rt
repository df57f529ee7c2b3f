// What a message is, how it is read and printed, and what a leaf's text is worth: specs/, with laws in proofs/.
#![tactic(auto)]
