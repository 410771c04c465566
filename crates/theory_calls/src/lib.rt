// The image's calls agree with the plain tree's, in specs/.
#![tactic(auto)]
