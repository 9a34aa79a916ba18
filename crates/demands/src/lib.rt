// What holds of every command is in proofs/Demands.antt, InOrder.antt, Moved.antt and Inserted.antt; no code uses it.
#![tactic(auto)]
