#![tactic(auto)]

// The starred samples of the rules as one proved list over the definitions: no code.
