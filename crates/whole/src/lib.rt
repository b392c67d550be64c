// Laws of whole numbers: see specs/ for the definitions and proofs/ for what is shown of them. No code.

#![tactic(auto)]
