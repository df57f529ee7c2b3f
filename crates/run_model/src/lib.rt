// What a redaction does, what each entry hands back, and what two redactions have in common: specs/, with proofs/.
#![tactic(auto)]
