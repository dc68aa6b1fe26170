// Worked values of the rules in `paper`: labels to try, K1 to K12 among them, and each definition by values. There is nothing here to run.
#![tactic(auto)]
