// No code: cases A to L, computed: those of document 01, from the definitions, in specs/.
#![tactic(auto)]
