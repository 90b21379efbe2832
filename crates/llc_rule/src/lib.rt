// The link's calls, records and rules as document 01 has them, and what holds of every run. See specs/Claim.antt.
#![tactic(auto)]
