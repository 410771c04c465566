// The bench sheet's starred lines, proved from the definitions in specs/.
#![tactic(auto)]
