// The summary.

#![tactic(auto)]
