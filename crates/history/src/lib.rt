// The delivery history: what every list of offers, merges and requests leaves in the stores, and
// what never comes back after a purge. Definitions and their proofs alone, no function.
#![tactic(auto)]
