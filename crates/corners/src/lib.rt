// Worked examples where the rules bend: refusals, crooked and spoiled tables, the largest ones. Theorems only.
#![tactic(auto)]
