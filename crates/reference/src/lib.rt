// Document 01, 'Reference cases, both sides of each edge', and the places of document 02, No. 1, 'Say column or row': two tables of data, each with its claim, in specs/, proved in proofs/. No code.

#![tactic(auto)]
