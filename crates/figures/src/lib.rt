// No code: document 01's figures at the edges, as a table (specs/) that is computed (proofs/).
#![tactic(auto)]
