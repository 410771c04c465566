// The theorems about growth from any spot: what it shows, keeps and counts, in specs/.
#![tactic(auto)]
