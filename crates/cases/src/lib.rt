// The starred cases are in specs/Cases.antt; no code uses them.
#![tactic(auto)]
