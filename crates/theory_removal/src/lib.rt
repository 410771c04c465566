// The theorems about removal: what it shows, keeps and frees, in specs/.
#![tactic(auto)]
