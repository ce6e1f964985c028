// Laws on lists that more than one crate uses. All of it is in specs/.
#![tactic(auto)]
