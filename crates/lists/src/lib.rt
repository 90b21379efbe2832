// Definitions and laws alone: lists, queues that lie in arrays, and writes one behind the other. See specs/Lists.antt.
#![tactic(auto)]
