// The theorems about the definitions of the crate model, in specs/.
#![tactic(auto)]
