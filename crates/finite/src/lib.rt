// A granted curvature call stores no NaN and no infinity: theorems about its promise, and no code.

#![tactic(auto)]
