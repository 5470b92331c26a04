// What is claimed of the entry points together, over their contracts: theory only.
#![tactic(auto)]
