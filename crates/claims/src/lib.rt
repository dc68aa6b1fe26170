// Claims about the rules as the code holds them: a path's ink and the bands of a label, that no two outcomes satisfy a
// promise, and that old bytes and words have no say. The theorems stand in specs/ and proofs/; there is nothing to run.
#![tactic(auto)]
