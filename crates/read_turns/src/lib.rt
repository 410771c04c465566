// What holds at each turn of the check's walk over a logical list: laws alone.
#![tactic(auto)]
