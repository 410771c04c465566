// The theorems about reading an image, in specs/.
#![tactic(auto)]
