// What holds of every scrub is in proofs/Demands.antt, beside the listing in Listed.antt, and beside a READ in AsRead.antt; no code uses it.
#![tactic(auto)]
