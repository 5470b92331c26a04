// A record that keeps the rules shows exactly one reference state, and each allowed state is shown by exactly one record. There is nothing to run here.
#![tactic(auto)]
