// The board's arithmetic: degree, load, total, excess and spread, and the rule of a round. Nothing runs here.
#![tactic(auto)]
