// The pages: the three demands, the starred examples as one table, and that each contract leaves one outcome, stated in specs/ in names that the crates define and proved in proofs/ by their laws: theory alone.
#![tactic(auto)]
