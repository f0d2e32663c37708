// Any two results that a contract allows are equal, for each public function of each library. There is no code here: specs/
// says what that is, of any function; proofs/ has one lemma for all, and a line for each function.
#![tactic(auto)]
