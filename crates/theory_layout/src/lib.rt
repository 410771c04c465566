// Where the rows of a store stand in its image, as navigation reads them, in specs/.
#![tactic(auto)]
