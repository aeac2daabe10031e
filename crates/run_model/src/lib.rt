#![tactic(auto)]

// A run of hops: its definition and the claims on it, in specs/, and their proofs. It has no code.
