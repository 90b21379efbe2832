// Laws alone: whole numbers with sign, and what casts and sums of them ask. See proofs/Integers.antt.
#![tactic(auto)]
