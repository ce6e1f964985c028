// What it means that words hold a graph. All of it is in specs/.
#![tactic(auto)]
