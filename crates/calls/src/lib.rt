// Any list of calls on one host. There is no code here: specs/ has the calls as data and the record that is to be held
// after them, proofs/ the order's third demand about them.
#![tactic(auto)]
