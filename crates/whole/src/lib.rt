// Whole numbers: what the other crates' contracts and proofs say of sums, tables, searches and rules. Definitions are in specs/, laws in
// proofs/. No code.
#![tactic(auto)]
