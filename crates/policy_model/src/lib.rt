// What a policy is, how it is read, printed and merged: specs/, with laws in proofs/.
#![tactic(auto)]
