// What holds of every listing is in proofs/Demands.antt and States.antt, its lines one by one in Indexed.antt; no code uses it.
#![tactic(auto)]
