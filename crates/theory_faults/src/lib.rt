// The fault that Diagnose finds, and the theorem that it finds one exactly where the check does not pass, in specs/.
#![tactic(auto)]
