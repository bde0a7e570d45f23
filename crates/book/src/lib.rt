// No code: term 3, for any chooser: it is stated in specs/ and proved in proofs/, for every chooser that keeps the laws of specs/Chooser.antt.
#![tactic(auto)]
