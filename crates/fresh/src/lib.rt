// What holds of fresh segments is in proofs/Demands.antt; no code uses it.
#![tactic(auto)]
