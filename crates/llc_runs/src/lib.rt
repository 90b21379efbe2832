// Runs of the basic link: definitions and theorems alone.
#![tactic(auto)]
