// The marked examples of document 01, over the definitions that the rooms' contracts cite: specs/Marked.antt.
#![tactic(auto)]
