// Laws of floats: see specs/ for what an exact value is and proofs/ for what is shown of it. No code.

#![tactic(auto)]
