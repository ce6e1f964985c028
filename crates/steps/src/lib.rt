// The abstract machine of document 01. All of it is in specs/.
#![tactic(auto)]
