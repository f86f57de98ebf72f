// Document 01's cases marked P, as one table under one theorem. Nothing runs here.
#![tactic(auto)]
