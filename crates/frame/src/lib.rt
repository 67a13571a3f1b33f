// Demand 3 over the definitions of the calls: specs/ has lists of calls, the plain frame and the statement,
// proofs/Demand3Holds.antt the proof.

#![tactic(auto)]
