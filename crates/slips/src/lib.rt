// Slips as theorems: see specs/ for each wrong definition and what is claimed of it, and proofs/ for the proofs. No code.

#![tactic(auto)]
