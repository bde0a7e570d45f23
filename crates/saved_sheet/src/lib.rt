// No code: sheets with saved sessions, from bytes to bytes, are defined in specs/, and what is claimed of them is proved in proofs/.
#![tactic(auto)]
