// Document 01's starred cases, from the definitions. All of it is in specs/.
#![tactic(auto)]
