// Document 01's "Proved examples", one proof over one table: specs/Table.antt has the table, proofs/Examples.antt the proof.
#![tactic(auto)]
