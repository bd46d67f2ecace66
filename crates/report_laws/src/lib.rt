// Worked texts and theorems about the whole text of a plan's run, document 01, the end of "Cases". No code.
#![tactic(auto)]
