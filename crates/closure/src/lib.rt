// Theorems on the abstract machine: demand 3, rebuild ends, class lists, dead keys. All of it is in specs/.
#![tactic(auto)]
