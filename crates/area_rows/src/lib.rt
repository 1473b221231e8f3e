// Rows of numbers in lent arrays: what a row is, and the laws of one that is stored, for any width. Nothing here runs.
#![tactic(auto)]
