// The theorems about nodes, their paths and their places, in specs/.
#![tactic(auto)]
