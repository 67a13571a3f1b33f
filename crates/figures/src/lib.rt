// Document 01's figures, held against the definitions: specs/Figures.antt has the table, proofs/Agree.antt the theorem.

#![tactic(auto)]
