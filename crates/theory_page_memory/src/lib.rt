// What the page writes of an insert make of the pages, in specs/.
#![tactic(auto)]
