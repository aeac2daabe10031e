// What `watch` shows of a run after each of its hops is what the single calls would have left there: the claims in specs/, and their proofs. It
// has no code.
#![tactic(auto)]
