// An insert from the record that takes the new node upwards, as the code does it, in specs/.
#![tactic(auto)]
