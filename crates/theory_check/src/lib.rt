// The check as tests on the bytes of an image, and the theorem that it passes exactly where there is a reading, in specs/.
#![tactic(auto)]
