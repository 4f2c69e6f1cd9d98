// One outcome for each input: every exported function, by its own contract. Theorems only.
#![tactic(auto)]
