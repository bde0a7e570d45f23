// No code: what a session that was saved and read back answers is stated in specs/ and proved in proofs/, for every chooser of the book and in either mode.
#![tactic(auto)]
