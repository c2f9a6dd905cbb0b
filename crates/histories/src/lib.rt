// No code: proofs/ runs the history statement of the crate rules on histories that the outside implementation answered, and shows that the rules
// answer them so.
// The script `variants` tries wrong variants of the statement on them.
#![tactic(auto)]
