#![tactic(auto)]

// What a layout text is, as an inductive grammar over its tokens: definitions and theorems alone, no code.
// The theorems say that the reader of `fmd_parse` accepts exactly the texts that the grammar derives, with what it derives.
