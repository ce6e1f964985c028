// What the promises of the calls come to: outcomes that are one, and the words from setup on, through any calls. All of it is in specs/ and proofs/.
#![tactic(auto)]
