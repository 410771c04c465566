// The theorems about headers, rows and records that stand in bytes, in specs/.
#![tactic(auto)]
