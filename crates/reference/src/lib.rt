// Document 01's machine as definitions (specs/) and its laws (proofs/). There is nothing to run here.
#![tactic(auto)]
