// No code: heap and list under term 3: as choosers of the book they are in specs/.
#![tactic(auto)]
