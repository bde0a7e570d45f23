// No code: the laws of lists and tests that the other crates cite are in specs/.
#![tactic(auto)]
